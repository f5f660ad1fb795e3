ghost use Rattle.level.specs.Values.{reads2};
ghost use Rattle.std.specs.Prelude.{false};
ghost use Rattle.std.proofs.Common.{rules};

use crate::level::Level;
use crate::line_value::LineValue;

// The two-way kind: every line is driven.
#[derive(Clone, Copy)]
pub struct TwoWay(bool);

impl LineValue for TwoWay {
    const KNOWS_X: bool = false;

    ghost KNOWS_X = { false };

    ghost reads = { reads2 };

    ghost never = { Prim.search rules };

    fn make(byte: u8) -> Option<Self> {
        match byte {
            b'0' => Some(TwoWay(false)),
            b'1' => Some(TwoWay(true)),
            _ => None,
        }
    }

    fn read(self) -> Level {
        if self.0 { Level::One } else { Level::Zero }
    }

    fn not(self) -> Self {
        TwoWay(!self.0)
    }

    fn and(self, other: Self) -> Self {
        TwoWay(self.0 & other.0)
    }

    fn or(self, other: Self) -> Self {
        TwoWay(self.0 | other.0)
    }

    fn xor(self, other: Self) -> Self {
        TwoWay(self.0 != other.0)
    }
}
