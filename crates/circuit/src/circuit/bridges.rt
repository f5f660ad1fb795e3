ghost use Rattle.std.specs.Prelude.{◌≡◌, ◌≤◌, count_by, length, Decides, MatchResult};
ghost use Rattle.circuit.specs.Bridges.{pairs, bridge_outcome, low, high};
ghost use Rattle.circuit.specs.Feedback.{Chain, feedback_outcome, feedback_bridges};

use crate::bridge::{Bridge, bridge_at};
use crate::circuit::Circuit;
use crate::limit::MAX_LINES;
use crate::refusal::CircuitFault;

fn count_marked(marks: &[bool]) -> usize
    ensures { result ≡ count_by (λ m. m) marks.now }
{
    marks.iter().filter(|mark| **mark).count()
}

impl Circuit<'_> {
    // How many bridges there are: each pair of lines.
    pub fn bridges(&self) -> usize
        ensures { result ≡ pairs (length self.now.rows.now) }
    {
        let lines = self.rows.len();
        match lines {
            0 => 0,
            _ => lines * (lines - 1) / 2,
        }
    }

    // The two lines of a bridge.
    pub fn bridge(&self, number: usize) -> Result<Bridge, CircuitFault>
        ensures { result ≡ bridge_outcome (length self.now.rows.now) number }
    {
        bridge_at(self.rows.len(), number).ok_or(CircuitFault::NoBridge { bridge: number })
    }

    // Whether a chain of pins leads from the lower line of a bridge to the higher one.
    pub fn is_feedback(&self, number: usize) -> Result<bool, CircuitFault>
        ensures outcome { result ≡ feedback_outcome self.now.rows.now number }
        ensures chain { MatchResult result (λ b. Decides b (Chain self.now.rows.now (low (length self.now.rows.now) number) (high (length self.now.rows.now) number))) (λ _. pairs (length self.now.rows.now) ≤ number) }
    {
        let Bridge { low, high } = self.bridge(number)?;
        let mut marks = [false; MAX_LINES];
        self.mark_cone(low, &mut marks);
        Ok(marks[high])
    }

    // How many bridges are feedback bridges.
    pub fn feedback_bridges(&self) -> usize
        ensures { result ≡ feedback_bridges self.now.rows.now }
    {
        let lines = self.rows.len();
        let mut marks = [false; MAX_LINES];
        let mut total = 0;
        for low in 0..lines {
            self.mark_cone(low, &mut marks);
            total += count_marked(&marks[low + 1..lines]);
        }
        total
    }
}
