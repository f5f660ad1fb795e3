ghost use Rattle.head.specs.Meaning.{measured};
ghost use Rattle.head.specs.Planted.{planted};
ghost use Rattle.head.specs.Stands.{Plants};
ghost use Rattle.std.specs.Prelude.{◌≡◌, length};

use crate::binary::check_binary;
use crate::fault::{HeadFault, OPEN};
use crate::head::Head;
use crate::reading::Reading;
use circuit::circuit::Circuit;
use circuit::detection::is_detected;
use level::line_value::LineValue;

// Acts as a chip with one bridge: high exactly for the vectors that detect it.
#[derive(Drop)]
pub struct Planted<'c, 'm, V> {
    cells: &'m mut [V],
    circuit: Circuit<'c>,
    bridge: usize,
}

// What a chip with this bridge reads under the vector.
fn ask<V: LineValue>(
    circuit: &Circuit,
    bridge: usize,
    vector: &[u8],
    cells: &mut [V],
) -> Result<Reading, HeadFault>
    ensures { result ≡ measured (planted circuit.now.rows.now bridge (length cells.old)) vector.now }
{
    check_binary(vector, circuit.inputs(), 0)?;
    let lines = circuit.bridge(bridge).map_err(|_| OPEN)?;
    circuit.evaluate(vector, cells).map_err(|_| OPEN)?;
    match is_detected(lines, cells) {
        Some(true) => Ok(Reading::High),
        Some(false) => Ok(Reading::Low),
        None => Err(OPEN),
    }
}

impl<'c, 'm, V> Planted<'c, 'm, V> {
    pub fn new(circuit: Circuit<'c>, bridge: usize, cells: &'m mut [V]) -> Planted<'c, 'm, V>
        ensures circuit { result.circuit.rows.now ≡ circuit.entry.rows.now }
        ensures bridge { result.bridge ≡ bridge }
        ensures cells { result.cells.now ≡ cells.old }
        ensures named { result.cells.ghost_name ≡ cells.entry.ghost_name }
        ensures plants { Plants circuit.entry.rows.now bridge (length cells.old) }
    {
        Planted {
            circuit,
            bridge,
            cells,
        }
    }

    // Gives the circuit back, and leaves the cells as they are.
    pub fn close(self) -> Circuit<'c>
        ensures circuit { result.rows.now ≡ self.entry.circuit.rows.now }
        ensures cells { let cells = self.exit.0 in cells.now ≡ self.entry.cells.now }
    {
        let Planted {
            circuit,
            bridge: _,
            cells: _,
        } = self;
        circuit
    }
}

impl<'c, 'm, V: LineValue> Head for Planted<'c, 'm, V> {
    ghost meaning = { λ s. planted s.circuit.rows.now s.bridge (length s.cells.now) };

    ghost asked = { λ s v r t. (t.circuit.rows.now ≡ s.circuit.rows.now) × (t.bridge ≡ s.bridge) × (t.cells.ghost_name ≡ s.cells.ghost_name) };

    fn width(&self) -> usize {
        self.circuit.inputs()
    }

    fn adaptors(&self) -> u8 {
        0
    }

    fn measure(&mut self, vector: &[u8]) -> Result<Reading, HeadFault> {
        ask(&self.circuit, self.bridge, vector, self.cells)
    }
}
