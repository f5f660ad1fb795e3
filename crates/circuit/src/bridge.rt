ghost use Rattle.std.specs.Prelude.{◌≡◌, ◌+◌, ◌^◌, ◌<◌, ◌≤◌};
ghost use Rattle.circuit.specs.Bridges.{bridge_of, number, number_of, Numbered};

use crate::limit::MAX_LINES;

// Two lines that may be shorted, the lower one first.
#[derive(Clone, Copy, PartialEq, Eq, Debug)]
pub struct Bridge {
    pub low: usize,
    pub high: usize,
}

// The bridge from `low` to the line so many past its next one.
fn bridge_past(low: usize, rest: usize) -> Bridge
    requires { low + 1 + rest < 2 ^ 64 }
    ensures { result ≡ record { low = low; high = low + 1 + rest } }
{
    Bridge {
        low,
        high: low + 1 + rest,
    }
}

// The bridge of a number among those of so many lines; none past the last.
pub fn bridge_at(lines: usize, number: usize) -> Option<Bridge>
    ensures value { result ≡ bridge_of lines number }
    ensures undone { Numbered lines }
{
    let mut rest = number;
    for low in 0..lines {
        let width = lines - 1 - low;
        if rest < width {
            return Some(bridge_past(low, rest));
        }
        rest -= width;
    }
    None
}

fn number(lines: usize, low: usize, high: usize) -> usize
    requires few { lines ≤ 1024 }
    requires ordered { low < high }
    requires within { high < lines }
    ensures { result ≡ number lines low high }
{
    low * lines - low * (low + 1) / 2 + high - low - 1
}

// The number of a bridge among those of so many lines; none where it is no bridge of them, or where
// they are more than a circuit may have.
pub fn bridge_number(lines: usize, bridge: Bridge) -> Option<usize>
    ensures value { result ≡ number_of lines bridge.low bridge.high }
    ensures undone { Numbered lines }
{
    let Bridge { low, high } = bridge;
    if lines > MAX_LINES || low >= high || high >= lines {
        return None;
    }
    Some(number(lines, low, high))
}
