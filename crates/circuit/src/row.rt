ghost use Rattle.circuit.specs.Kinds.{is_input};
ghost use Rattle.circuit.specs.Rows.{inputs, named, pins_of};
ghost use Rattle.std.specs.Prelude.{◌≡◌, not};

use crate::kind::Kind;

// A part of the netlist text.
#[derive(Clone, Copy, PartialEq, Eq, Debug)]
pub struct Span {
    pub offset: u32,
    pub len: u8,
}

// One line of the netlist. A blank row has no kind, and zeros. Its pins stand in the row, with their
// count, since rows are memory that the caller lends.
#[derive(Clone, Copy, PartialEq, Eq, Debug)]
pub struct Row {
    pub kind: Option<Kind>,
    pub count: u8,
    pub pins: [u16; 8],
    pub output: bool,
    pub name: Span,
}

impl Row {
    pub const BLANK: Row = Row {
        kind: None,
        count: 0,
        pins: [0; 8],
        output: false,
        name: Span { offset: 0, len: 0 },
    };

    pub fn is_blank(&self) -> bool
        ensures { result ≡ not (named self.now) }
    {
        self.kind.is_none()
    }

    pub fn is_input(&self) -> bool
        ensures { result ≡ is_input self.now.kind }
    {
        matches!(self.kind, Some(Kind::Input))
    }

    // The pins of a gate; an input has none.
    pub fn used_pins(&self) -> &[u16]
        ensures { result.now ≡ pins_of self.now }
    {
        match self.kind {
            None | Some(Kind::Input) => &self.pins[..0],
            Some(_) => &self.pins[..usize::from(self.count).min(8)],
        }
    }
}

pub fn input_count(rows: &[Row]) -> usize
    ensures { result ≡ inputs rows.now }
{
    rows.iter().filter(|row| row.is_input()).count()
}
