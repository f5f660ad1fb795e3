ghost use Rattle.head.specs.Refusals.{one_more, refusal_of, raised};
ghost use Rattle.std.specs.Prelude.{◌≡◌};

use circuit::refusal::{Layer, Refusal};

// Why a head does not answer, or does not take a pin map. The adaptors are those in the head.
#[derive(Clone, Copy, PartialEq, Eq, Debug)]
pub enum HeadFault {
    NotPermutation { place: usize },
    Open { adaptors: u8 },
    Width { adaptors: u8 },
}

// What a head that is no adaptor refuses where it gives no answer.
pub(crate) const OPEN: HeadFault = HeadFault::Open { adaptors: 0 };

// The count of adaptors stops at 255.
pub(crate) fn one_more(adaptors: u8) -> u8
    ensures { result ≡ one_more adaptors }
{
    adaptors.saturating_add(1)
}

impl HeadFault {
    // The same fault of a head with one adaptor more.
    pub fn under_adaptor(self) -> HeadFault
        ensures { result ≡ raised self }
    {
        match self {
            HeadFault::NotPermutation { .. } => self,
            HeadFault::Open { adaptors } => HeadFault::Open {
                adaptors: one_more(adaptors),
            },
            HeadFault::Width { adaptors } => HeadFault::Width {
                adaptors: one_more(adaptors),
            },
        }
    }
}

impl From<HeadFault> for Refusal {
    ghost from_gives = { λ e r. r ≡ refusal_of e };

    fn from(fault: HeadFault) -> Self {
        let (number, place) = match fault {
            HeadFault::NotPermutation { place } => (19, place),
            HeadFault::Open { adaptors } => (24, usize::from(adaptors)),
            HeadFault::Width { adaptors } => (25, usize::from(adaptors)),
        };
        Refusal {
            number,
            place,
            layer: Layer::Head,
        }
    }
}
