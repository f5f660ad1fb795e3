ghost use Rattle.std.specs.Prelude.{◌≡◌, ℕ, ◌<◌, List, map, length, take, Some as Known};
ghost use Rattle.circuit.specs.Detection.{detected_in, detects_lines};
ghost use Rattle.circuit.specs.Levels.{levels};
ghost use Rattle.circuit.specs.declared.row.Row.{Row};
ghost use Rattle.level.specs.Tables.{opposed};

use crate::bridge::Bridge;
use level::line_value::LineValue;

fn is_opposed<V: LineValue>(a: V, b: V) -> bool
    ensures { result ≡ opposed (V.reads a) (V.reads b) }
{
    a.read().opposes(b.read())
}

fn is_read_opposed<V: LineValue>(bridge: Bridge, cells: &[V]) -> Option<bool>
    ensures { result ≡ detected_in (map V.reads cells.now) bridge.low bridge.high }
{
    let (low, high) = (cells.get(bridge.low)?, cells.get(bridge.high)?);
    Some(is_opposed(*low, *high))
}

// Whether one line of the bridge reads 0 and the other 1; none where a line has no cell. Where the
// cells hold what a circuit reads under a vector, that vector detects the bridge exactly then.
pub fn is_detected<V: LineValue>(bridge: Bridge, cells: &[V]) -> Option<bool>
    ensures value { result ≡ detected_in (map V.reads cells.now) bridge.low bridge.high }
    ensures vector { (rows : List Row) (w : List ℕ) → map V.reads (take (length rows) cells.now) ≡ levels rows w → bridge.low < length rows → bridge.high < length rows → result ≡ Known (detects_lines rows w bridge.low bridge.high) }
{
    is_read_opposed(bridge, cells)
}
