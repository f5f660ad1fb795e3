ghost use Rattle.circuit.specs.Kinds.{takes};
ghost use Rattle.std.specs.Prelude.{◌≡◌};

// What drives a line: the chip's input pin, or a gate.
#[derive(Clone, Copy, PartialEq, Eq, Debug)]
pub enum Kind {
    Input,
    And,
    Nand,
    Or,
    Nor,
    Xor,
    Xnor,
    Not,
    Buff,
}

impl Kind {
    // Whether a gate of this kind may have so many pins. An input's pin count says nothing.
    pub fn takes(self, pins: usize) -> bool
        ensures { result ≡ takes self pins }
    {
        match self {
            Kind::Input => true,
            Kind::Not | Kind::Buff => pins == 1,
            _ => (2..=8).contains(&pins),
        }
    }
}
