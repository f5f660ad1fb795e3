ghost use Rattle.circuit.specs.Bridges.{pairs};
ghost use Rattle.job.specs.Summaries.{summary_outcome, summary_text};
ghost use Rattle.std.specs.Prelude.{◌≡◌, IfOk, Some};

use crate::fault::JobFault;
use crate::split::split;
use circuit::circuit::Circuit;
use circuit::row::Row;
use netlist::read::read;
use std::fmt;

// The lines that a job may have.
const JOB_LINES: usize = 64;

// What the first line of a listing says.
#[derive(Clone, Copy, PartialEq, Eq, Debug)]
pub struct Summary {
    pub lines: usize,
    pub inputs: usize,
    pub outputs: usize,
    pub bridges: usize,
    pub feedback: usize,
}

impl fmt::Display for Summary {
    ghost output = { λ s. Some (summary_text s) };

    fn fmt<W: fmt::Write>(&self, f: &mut fmt::Formatter<W>) -> fmt::Result {
        let Summary {
            lines,
            inputs,
            outputs,
            bridges,
            feedback,
        } = *self;
        write!(
            f,
            "lines {lines} inputs {inputs} outputs {outputs} bridges {bridges} feedback {feedback}"
        )
    }
}

// Reads the netlist of a job and counts.
pub fn summarize(job: &[u8]) -> Result<Summary, JobFault>
    ensures outcome { result ≡ summary_outcome job.now }
    ensures bridges { IfOk result (λ s. s.bridges ≡ pairs s.lines) }
{
    let parts = split(job)?;
    let mut rows = [Row::BLANK; JOB_LINES];
    read(parts.netlist, &mut rows)?;
    let circuit = Circuit::over(&rows);
    Ok(Summary {
        lines: circuit.lines(),
        inputs: circuit.inputs(),
        outputs: circuit.outputs(),
        bridges: circuit.bridges(),
        feedback: circuit.feedback_bridges(),
    })
}
