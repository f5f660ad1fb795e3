ghost use Rattle.std.specs.Prelude.{◌≡◌, ◌≤◌, false, length, take, slice_index_or};
ghost use Rattle.std.specs.List.{list_any};
ghost use Rattle.circuit.specs.Feedback.{cone, reach, Chains};
ghost use Rattle.circuit.specs.Rows.{pins_of, Below};

use crate::circuit::Circuit;
use crate::row::Row;

// A loop, since `any` over the pins makes a cone half as dear again.
fn is_any_marked(pins: &[u16], marks: &[bool]) -> bool
    requires { Below (length marks.now) pins.now }
    ensures { result ≡ list_any (λ p. slice_index_or marks.now p false) pins.now }
{
    for pin in pins {
        if marks[usize::from(*pin)] {
            return true;
        }
    }
    false
}

// Whether the line after those marked is the source, or has a marked pin.
fn is_reached(source: usize, row: &Row, past: &[bool]) -> bool
    requires { Below (length past.now) (pins_of row.now) }
    ensures { result ≡ reach source past.now row.now }
{
    past.len() == source || is_any_marked(row.used_pins(), past)
}

impl Circuit<'_> {
    // Marks the source, and each line that a chain of pins leads to from it.
    pub(crate) fn mark_cone(&self, source: usize, marks: &mut [bool])
        requires room { length self.now.rows.now ≤ length marks.old }
        ensures marks { take (length self.now.rows.now) marks.new ≡ cone self.now.rows.now source }
        ensures chains { Chains self.now.rows.now source }
    {
        for (line, row) in self.rows.iter().enumerate() {
            let reached = is_reached(source, row, &marks[..line]);
            marks[line] = reached;
        }
    }
}
