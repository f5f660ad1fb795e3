// Reads a job on standard input and prints the first line of its listing, or why it is refused.

#![tactic(auto)]

use circuit::refusal::Refusal;
use job::split::MAX_JOB;
use job::summary::summarize;
use std::io;
use std::io::Read;

// One byte more than the longest job shows that a job is too long.
const LIMIT: u64 = MAX_JOB as u64 + 1;

fn main(rt: HostRuntime) -> io::Result<()> {
    let mut job = Vec::new(rt.alloc());
    rt.stdin().take(LIMIT).read_to_end(&mut job)?;
    match summarize(&job).map_err(Refusal::from) {
        Ok(summary) => println!(rt; "{summary}"),
        Err(refusal) => println!(rt; "{refusal}"),
    }
}
