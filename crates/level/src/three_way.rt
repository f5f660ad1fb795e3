ghost use Rattle.level.specs.Values.{reads3};
ghost use Rattle.std.specs.Prelude.{true};
ghost use Rattle.std.proofs.Common.{rules};

use crate::level::Level;
use crate::line_value::LineValue;

// The three-way kind: a line is driven high or low, or it is not driven.
#[derive(Clone, Copy)]
pub struct ThreeWay(Option<bool>);

impl LineValue for ThreeWay {
    const KNOWS_X: bool = true;

    ghost KNOWS_X = { true };

    ghost reads = { reads3 };

    ghost never = { Prim.search rules };

    fn make(byte: u8) -> Option<Self> {
        match byte {
            b'0' => Some(ThreeWay(Some(false))),
            b'1' => Some(ThreeWay(Some(true))),
            b'X' => Some(ThreeWay(None)),
            _ => None,
        }
    }

    fn read(self) -> Level {
        match self.0 {
            Some(true) => Level::One,
            Some(false) => Level::Zero,
            None => Level::X,
        }
    }

    fn not(self) -> Self {
        ThreeWay(self.0.map(|high| !high))
    }

    fn and(self, other: Self) -> Self {
        let high = self.0.unwrap_or(true) & other.0.unwrap_or(true);
        let known = !high | (self.0.is_some() & other.0.is_some());
        ThreeWay(known.then_some(high))
    }

    fn or(self, other: Self) -> Self {
        let high = self.0.unwrap_or(false) | other.0.unwrap_or(false);
        let known = high | (self.0.is_some() & other.0.is_some());
        ThreeWay(known.then_some(high))
    }

    fn xor(self, other: Self) -> Self {
        let high = self.0.unwrap_or(false) != other.0.unwrap_or(false);
        let known = self.0.is_some() & other.0.is_some();
        ThreeWay(known.then_some(high))
    }
}
