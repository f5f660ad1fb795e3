ghost use Rattle.circuit.specs.Refusals.{layer_name, refusal_of, refusal_text};
ghost use Rattle.std.specs.Prelude.{◌≡◌, Some};

use std::fmt;

// The layer that a refusal rose in.
#[derive(Clone, Copy, PartialEq, Eq, Debug)]
pub enum Layer {
    Circuit,
    Session,
    Head,
    Image,
    Job,
}

impl Layer {
    pub fn name(self) -> &'static str
        ensures { result.now ≡ layer_name self }
    {
        match self {
            Layer::Circuit => "circuit",
            Layer::Session => "session",
            Layer::Head => "head",
            Layer::Image => "image",
            Layer::Job => "job",
        }
    }
}

impl fmt::Display for Layer {
    ghost output = { λ l. Some (layer_name l) };

    fn fmt<W: fmt::Write>(&self, f: &mut fmt::Formatter<W>) -> fmt::Result {
        f.write_str(self.name())
    }
}

// A refusal: docs/refusals.md has the numbers and the places.
#[derive(Clone, Copy, PartialEq, Eq, Debug)]
pub struct Refusal {
    pub number: u8,
    pub place: usize,
    pub layer: Layer,
}

impl fmt::Display for Refusal {
    ghost output = { λ r. Some (refusal_text r) };

    fn fmt<W: fmt::Write>(&self, f: &mut fmt::Formatter<W>) -> fmt::Result {
        let Refusal {
            number,
            place,
            layer,
        } = *self;
        write!(f, "refused {number} at {place} in {layer}")
    }
}

// Why a circuit does not answer.
#[derive(Clone, Copy, PartialEq, Eq, Debug)]
pub enum CircuitFault {
    NoLine { line: usize },
    NoBridge { bridge: usize },
}

impl From<CircuitFault> for Refusal {
    ghost from_gives = { λ e r. r ≡ refusal_of e };

    fn from(fault: CircuitFault) -> Self {
        let place = match fault {
            CircuitFault::NoLine { line } => line,
            CircuitFault::NoBridge { bridge } => bridge,
        };
        Refusal {
            number: 17,
            place,
            layer: Layer::Circuit,
        }
    }
}
