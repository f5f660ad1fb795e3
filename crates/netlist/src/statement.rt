ghost use Rattle.std.specs.Prelude.{◌≡◌};
ghost use Rattle.netlist.specs.Statements.{with_pin};

use crate::pins::Pins;
use circuit::row::Span;

// `keyword(word)`
#[derive(Clone, Copy)]
pub struct Declaration {
    pub keyword: Span,
    pub word: Span,
}

// `line = kind(pin, .., pin)`; no pins are kept where they are more than eight.
#[derive(Clone, Copy)]
pub struct Gate {
    pub line: Span,
    pub kind: Span,
    pub pins: Option<Pins>,
}

impl Gate {
    pub(crate) fn with(self, pin: Span) -> Gate
        ensures { result ≡ with_pin self pin }
    {
        Gate {
            pins: self.pins.and_then(|pins| pins.with(pin)),
            ..self
        }
    }
}

// What a text line says.
#[derive(Clone, Copy)]
pub enum Statement {
    Empty,
    Declaration(Declaration),
    Gate { gate: Gate, close: usize },
}
