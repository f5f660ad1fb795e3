ghost use Rattle.level.specs.Tables.{opposed, Opposite};
ghost use Rattle.std.specs.Prelude.{◌≡◌, Decides};

// What a line reads. X is a line that nothing drives.
#[derive(Clone, Copy, PartialEq, Eq, Debug)]
pub enum Level {
    Zero,
    One,
    X,
}

impl Level {
    // Whether one of the two reads 0 and the other 1.
    pub fn opposes(self, other: Level) -> bool
        ensures value { result ≡ opposed self other }
        ensures decides { Decides result (Opposite self other) }
    {
        match (self, other) {
            (Level::Zero, Level::One) | (Level::One, Level::Zero) => true,
            _ => false,
        }
    }
}
