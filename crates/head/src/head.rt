ghost use Rattle.head.specs.Meaning.{Meaning, Lawful, measured};
ghost use Rattle.head.specs.declared.fault.HeadFault.{HeadFault as Fault};
ghost use Rattle.head.specs.declared.reading.Reading.{Reading as Read};
ghost use Rattle.std.specs.Prelude.{◌≡◌, ℕ, List, Result as Outcome};

use crate::fault::HeadFault;
use crate::reading::Reading;

// A measuring head. `meaning` is all that code over a head may rest on. `asked` relates the head before and
// after one asking with the vector and the outcome, so that a caller can promise how often it asked.
pub trait Head {
    ghost meaning: { Self → Meaning };

    ghost asked: { Self → List ℕ → Outcome Read Fault → Self → Type 0 };

    fn width(&self) -> usize
        ensures value { result ≡ (meaning self.now).width }
        ensures lawful { Lawful (meaning self.now) };

    fn adaptors(&self) -> u8
        ensures { result ≡ (meaning self.now).adaptors };

    fn measure(&mut self, vector: &[u8]) -> Result<Reading, HeadFault>
        ensures outcome { result ≡ measured (meaning self.old) vector.now }
        ensures same { meaning self.new ≡ meaning self.old }
        ensures once { asked self.old vector.now result self.new };
}
