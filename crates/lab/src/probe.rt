ghost use Rattle.lab.specs.Probe.{probe};
ghost use Rattle.std.specs.Prelude.{◌≡◌, ◌≤◌, min};

use head::binary::check_binary;
use head::fault::HeadFault;
use head::head::Head;
use head::reading::Reading;

// A head as a lab may write one: high where at least so many pins are 1.
#[derive(Clone, Copy)]
pub struct Probe {
    width: usize,
    least: usize,
    ghost narrow: { width ≤ 256 },
}

impl Probe {
    // A width above 256 is cut to 256.
    pub fn new(width: usize, least: usize) -> Probe
        ensures width { result.width ≡ min width 256 }
        ensures least { result.least ≡ least }
    {
        Probe {
            width: width.min(256),
            least,
        }
    }
}

impl Head for Probe {
    ghost meaning = { λ s. probe s.width s.least };

    ghost asked = { λ s v r t. t ≡ s };

    fn width(&self) -> usize {
        self.width
    }

    fn adaptors(&self) -> u8 {
        0
    }

    fn measure(&mut self, vector: &[u8]) -> Result<Reading, HeadFault> {
        check_binary(vector, self.width, 0)?;
        let ones = vector.iter().filter(|byte| **byte == b'1').count();
        if ones >= self.least {
            Ok(Reading::High)
        } else {
            Ok(Reading::Low)
        }
    }
}
