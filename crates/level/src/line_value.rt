ghost use Rattle.level.specs.Bytes.{allowed};
ghost use Rattle.level.specs.Tables.{not3, and3, or3, xor3};
ghost use Rattle.level.specs.declared.level.Level.{Level as Reading};
ghost use Rattle.level.specs.declared.level.Level.TheVariants.{X as undriven};
ghost use Rattle.std.specs.Option.{option_map};
ghost use Rattle.std.specs.Prelude.{◌≡◌, Bool, false, ◌≢◌};

use crate::level::Level;

// A kind of line value. `reads` is what a value stands for; every method is held to the tables by
// what its operands and its result read.
pub trait LineValue: Sized + Copy {
    // Whether the kind has a value that reads X. It holds for all values of the kind.
    const KNOWS_X: bool;

    ghost KNOWS_X: { Bool };

    ghost reads: { Self → Reading };

    // The value of an ASCII byte of a vector, 0, 1 or X; none where the kind has no such value.
    fn make(byte: u8) -> Option<Self>
        ensures { option_map reads result ≡ allowed KNOWS_X byte };

    fn read(self) -> Level
        ensures { result ≡ reads self };

    fn not(self) -> Self
        ensures { reads result ≡ not3 (reads self) };

    fn and(self, other: Self) -> Self
        ensures { reads result ≡ and3 (reads self) (reads other) };

    fn or(self, other: Self) -> Self
        ensures { reads result ≡ or3 (reads self) (reads other) };

    fn xor(self, other: Self) -> Self
        ensures { reads result ≡ xor3 (reads self) (reads other) };

    ghost never: { (v : Self) → KNOWS_X ≡ false → reads v ≢ undriven };
}
