ghost use Rattle.head.specs.Meaning.{turned, reading_text};
ghost use Rattle.std.specs.Prelude.{◌≡◌, Some};

use std::fmt;
use std::ops::Not;

// What a measurement reads: the supply current is high or low.
#[derive(Clone, Copy, PartialEq, Eq, Debug)]
pub enum Reading {
    High,
    Low,
}

impl Not for Reading {
    type Output = Reading;

    ghost not_gives = { λ reading r. r ≡ turned reading };

    fn not(self) -> Reading {
        match self {
            Reading::High => Reading::Low,
            Reading::Low => Reading::High,
        }
    }
}

impl fmt::Display for Reading {
    ghost output = { λ reading. Some (reading_text reading) };

    fn fmt<W: fmt::Write>(&self, f: &mut fmt::Formatter<W>) -> fmt::Result {
        f.write_str(match self {
            Reading::High => "high",
            Reading::Low => "low",
        })
    }
}
