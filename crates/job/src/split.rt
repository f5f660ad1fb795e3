ghost use Rattle.std.specs.Prelude.{◌≡◌, ◌||◌, ◌==◌, count_by};
ghost use Rattle.std.specs.List.{list_all};
ghost use Rattle.job.specs.Parts.{Split, percent_line};
ghost use Rattle.netlist.specs.Bytes.{blank_byte};

use crate::fault::JobFault;
use netlist::byte::is_blank;

pub const MAX_JOB: usize = 32_768;

// A job cut at its `%` line.
#[derive(Clone, Copy)]
pub struct Job<'a> {
    pub netlist: &'a [u8],
    pub vectors: &'a [u8],
}

fn is_percent_or_blank(byte: u8) -> bool
    ensures { result ≡ (byte == 37 || blank_byte byte) }
{
    byte == b'%' || is_blank(byte)
}

fn count_percents(line: &[u8]) -> usize
    ensures { result ≡ count_by (λ b. b == 37) line.now }
{
    line.iter().filter(|byte| **byte == b'%').count()
}

fn are_percents_and_blanks(line: &[u8]) -> bool
    ensures { result ≡ list_all (λ b. b == 37 || blank_byte b) line.now }
{
    line.iter().all(|byte| is_percent_or_blank(*byte))
}

// Whether the line is a single `%` among blanks.
fn is_percent_line(line: &[u8]) -> bool
    ensures { result ≡ percent_line line.now }
{
    count_percents(line) == 1 && are_percents_and_blanks(line)
}

// Cuts a job at its first `%` line.
pub fn split(job: &[u8]) -> Result<Job<'_>, JobFault>
    ensures { Split job.now result }
{
    if job.len() > MAX_JOB {
        return Err(JobFault::TooLarge);
    }
    let mut start = 0;
    for line in job.split(|byte| *byte == b'\n') {
        let end = start + line.len();
        if is_percent_line(line) {
            return Ok(Job {
                netlist: &job[..start],
                vectors: &job[(end + 1).min(job.len())..],
            });
        }
        start = end + 1;
    }
    Err(JobFault::NoPercentLine { length: job.len() })
}
