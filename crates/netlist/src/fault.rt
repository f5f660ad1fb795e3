ghost use Rattle.netlist.specs.Refusals.{refusal_of};
ghost use Rattle.netlist.specs.declared.fault.NetlistFault.TheVariants.{Token};
ghost use Rattle.std.specs.Prelude.{◌≡◌};

use circuit::refusal::{Layer, Refusal};

// How many bytes a netlist text may have.
pub const MAX_TEXT: usize = 1_048_576;

// Why a token is refused.
#[derive(Clone, Copy, PartialEq, Eq, Debug)]
pub enum TokenFault {
    OutOfForm { place: usize },
    TooLong { place: usize },
}

// Why a netlist text is refused, with the byte offset of what is at fault.
#[derive(Clone, Copy, PartialEq, Eq, Debug)]
pub enum NetlistFault {
    TooLarge,
    Token(TokenFault),
    UnknownKeyword { place: usize },
    PinCount { place: usize },
    Redefined { place: usize },
    UndefinedPin { place: usize },
    TooManyInputs { place: usize },
    TooManyLines { place: usize },
    UndefinedOutput { place: usize },
    NoInput { place: usize },
    NoRow { place: usize },
}

impl From<TokenFault> for NetlistFault {
    ghost from_gives = { λ e r. r ≡ Token e };

    fn from(fault: TokenFault) -> Self {
        NetlistFault::Token(fault)
    }
}

impl From<NetlistFault> for Refusal {
    ghost from_gives = { λ e r. r ≡ refusal_of e };

    fn from(fault: NetlistFault) -> Self {
        let (number, place) = match fault {
            NetlistFault::TooLarge => (1, MAX_TEXT),
            NetlistFault::Token(TokenFault::OutOfForm { place }) => (2, place),
            NetlistFault::Token(TokenFault::TooLong { place }) => (3, place),
            NetlistFault::UnknownKeyword { place } => (4, place),
            NetlistFault::PinCount { place } => (5, place),
            NetlistFault::Redefined { place } => (6, place),
            NetlistFault::UndefinedPin { place } => (7, place),
            NetlistFault::TooManyInputs { place } => (8, place),
            NetlistFault::TooManyLines { place } => (9, place),
            NetlistFault::UndefinedOutput { place } => (10, place),
            NetlistFault::NoInput { place } => (11, place),
            NetlistFault::NoRow { place } => (12, place),
        };
        Refusal {
            number,
            place,
            layer: Layer::Circuit,
        }
    }
}
