ghost use Rattle.circuit.specs.Levels.{levels, Reads};
ghost use Rattle.circuit.specs.Rows.{inputs};
ghost use Rattle.circuit.specs.Vectors.{evaluation_outcome, Fit};
ghost use Rattle.std.specs.Prelude.{◌≡◌, ◌≤◌, true, false, map, length, take, drop, is_ok};

use crate::circuit::Circuit;
use crate::evaluation::line;
use crate::vector::{EvaluationFault, check_vector};
use level::line_value::LineValue;

impl Circuit<'_> {
    // The values of all lines, one pass over the rows.
    fn fill<V: LineValue>(&self, vector: &[u8], cells: &mut [V])
        requires room { length self.now.rows.now ≤ length cells.old }
        requires fed { length vector.now ≡ inputs self.now.rows.now }
        requires fit { Fit V.KNOWS_X vector.now }
        ensures values { map V.reads (take (length self.now.rows.now) cells.new) ≡ levels self.now.rows.now vector.now }
        ensures rest { drop (length self.now.rows.now) cells.new ≡ drop (length self.now.rows.now) cells.old }
        ensures long { length cells.new ≡ length cells.old }
    {
        let mut bytes = vector.iter();
        for (i, row) in self.rows.iter().enumerate() {
            let value = line(row, &mut bytes, &cells[..i]);
            cells[i] = value;
        }
    }

    // Writes what each line reads under the vector into the cell of its number. Cells past the last
    // line stay, and all of them where it refuses.
    pub fn evaluate<V: LineValue>(
        &self,
        vector: &[u8],
        cells: &mut [V],
    ) -> Result<(), EvaluationFault>
        ensures outcome { result ≡ evaluation_outcome V.KNOWS_X self.now.rows.now vector.now (length cells.old) }
        ensures values { is_ok result ≡ true → map V.reads (take (length self.now.rows.now) cells.new) ≡ levels self.now.rows.now vector.now }
        ensures readings { is_ok result ≡ true → Reads self.now.rows.now vector.now (map V.reads (take (length self.now.rows.now) cells.new)) }
        ensures rest { drop (length self.now.rows.now) cells.new ≡ drop (length self.now.rows.now) cells.old }
        ensures refused { is_ok result ≡ false → cells.new ≡ cells.old }
    {
        if cells.len() < self.rows.len() {
            return Err(EvaluationFault::TooFewCells);
        }
        check_vector(vector, self.inputs(), V::KNOWS_X)?;
        self.fill(vector, cells);
        Ok(())
    }
}
