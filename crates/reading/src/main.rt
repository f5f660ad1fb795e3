// Reads netlist texts into rows and prints what came of each.

#![tactic(auto)]

use circuit::kind::Kind;
use circuit::refusal::Refusal;
use circuit::row::{Row, Span, input_count};
use netlist::read::read;

mod accepted;
mod large;
mod lines;
mod refused;

// A row as no reader leaves it, to be read over.
pub const STALE: Row = Row {
    kind: Some(Kind::Xor),
    count: 255,
    pins: [9; 8],
    output: true,
    name: Span { offset: 7, len: 7 },
};

// A text to be read, and how many rows are supplied.
#[derive(Clone, Copy)]
pub struct Case {
    pub title: &'static str,
    pub rows: usize,
    pub text: &'static [u8],
}

pub(crate) fn show(
    rt: &impl Print,
    title: &str,
    text: &[u8],
    rows: &mut [Row],
) -> std::io::Result<()> {
    let result = read(text, rows).map_err(Refusal::from);
    let inputs = input_count(rows);
    let outputs = rows.iter().filter(|row| row.output).count();
    let blanks = rows.iter().filter(|row| **row == Row::BLANK).count();
    match result {
        Ok(lines) => println!(rt;
            "{title}: lines {lines} inputs {inputs} outputs {outputs} blank {blanks}"
        ),
        Err(refusal) => println!(rt; "{title}: {refusal} blank {blanks}"),
    }
}

fn show_all(rt: &impl Print, cases: &[Case]) -> std::io::Result<()> {
    for case in cases {
        let mut rows = [STALE; 16];
        show(rt, case.title, case.text, &mut rows[0..case.rows.min(16)])?;
    }
    Ok(())
}

fn main(rt: HostRuntime) -> anyhow::Result<()> {
    show_all(&rt, &accepted::CASES)?;
    show_all(&rt, &refused::FORM)?;
    show_all(&rt, &refused::WORDS)?;
    show_all(&rt, &refused::GATES)?;
    show_all(&rt, &refused::WHOLE)?;
    large::show_limits(&rt)?;
    large::show_lengths(&rt)?;
    lines::show_lines(&rt)?;
    lines::show_names(&rt)
}
