ghost use Rattle.std.specs.Prelude.{◌≡◌, ◌≤◌, length};
ghost use Rattle.netlist.specs.Statements.{added, used_of};

use circuit::row::Span;

// The words of at most eight pins, in place with their count: there is no heap, and states are `Copy`.
#[derive(Clone, Copy)]
pub struct Pins {
    pub count: u8,
    pub spans: [Span; 8],
}

impl Pins {
    pub const NONE: Pins = Pins {
        count: 0,
        spans: [Span { offset: 0, len: 0 }; 8],
    };

    // One pin more, where there is room for it.
    pub(crate) fn with(self, pin: Span) -> Option<Pins>
        ensures { result ≡ added self pin }
    {
        if self.count >= 8 {
            return None;
        }
        let mut spans = self.spans;
        spans[usize::from(self.count)] = pin;
        Some(Pins {
            count: self.count + 1,
            spans,
        })
    }

    pub(crate) fn used(&self) -> &[Span]
        ensures value { result.now ≡ used_of self.now }
        ensures few { length result.now ≤ 8 }
    {
        &self.spans[..usize::from(self.count).min(8)]
    }
}
