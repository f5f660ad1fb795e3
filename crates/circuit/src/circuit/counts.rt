ghost use Rattle.circuit.specs.Rows.{inputs, outputs, output_outcome};
ghost use Rattle.std.specs.Prelude.{◌≡◌, length};

use crate::circuit::Circuit;
use crate::refusal::CircuitFault;
use crate::row::input_count;

impl Circuit<'_> {
    pub fn lines(&self) -> usize
        ensures { result ≡ length self.now.rows.now }
    {
        self.rows.len()
    }

    pub fn inputs(&self) -> usize
        ensures { result ≡ inputs self.now.rows.now }
    {
        input_count(self.rows)
    }

    // How many lines are marked as outputs.
    pub fn outputs(&self) -> usize
        ensures { result ≡ outputs self.now.rows.now }
    {
        self.rows.iter().filter(|row| row.output).count()
    }

    pub fn is_output(&self, line: usize) -> Result<bool, CircuitFault>
        ensures { result ≡ output_outcome self.now.rows.now line }
    {
        let row = self.rows.get(line).ok_or(CircuitFault::NoLine { line })?;
        Ok(row.output)
    }
}
