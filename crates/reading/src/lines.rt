use crate::STALE;
use circuit::row::{Row, Span};
use netlist::name::name_of;
use netlist::read::read;
use std::str::from_utf8;

const TEXT: &[u8] =
    b"INPUT(a)\nINPUT(b)\nOUTPUT(h)\nc = AND(a, b)\nd2 = NAND(b, a, c)\ne = OR(a, a)\nf = NOR(d2, e)
g = XOR(a, b, c, d2, e, f, a, b)\nh = XNOR(g, a)\ni = NOT(h)\nj_ = BUFF(i)\nOUTPUT(a)";

fn show_row(rt: &impl Print, line: usize, row: &Row) -> anyhow::Result<()> {
    let name = from_utf8(name_of(TEXT, row))?;
    let count = row.count;
    let pins = row.pins;
    let output = row.output;
    match row.kind {
        Some(kind) => println!(rt; "{line} {name} {kind:?} {count} {pins:?} {output}")?,
        None => println!(rt; "{line} blank")?,
    }
    Ok(())
}

// Every kind of line, row by row.
pub(crate) fn show_lines(rt: &impl Print) -> anyhow::Result<()> {
    let mut rows = [STALE; 12];
    let _ = read(TEXT, &mut rows);
    for (line, row) in rows.iter().enumerate() {
        show_row(rt, line, row)?;
    }
    Ok(())
}

fn show_name(rt: &impl Print, text: &[u8], offset: u32, len: u8) -> anyhow::Result<()> {
    let row = Row {
        name: Span { offset, len },
        ..Row::BLANK
    };
    let name = from_utf8(name_of(text, &row))?;
    println!(rt; "name at {offset} of {len}: [{name}]")?;
    Ok(())
}

// Names inside a text, at its end and past it.
pub(crate) fn show_names(rt: &impl Print) -> anyhow::Result<()> {
    show_name(rt, b"INPUT(abc)", 6, 3)?;
    show_name(rt, b"INPUT(abc)", 6, 4)?;
    show_name(rt, b"INPUT(abc)", 6, 5)?;
    show_name(rt, b"INPUT(abc)", 10, 0)?;
    show_name(rt, b"INPUT(abc)", 11, 0)?;
    show_name(rt, b"INPUT(abc)", u32::MAX, u8::MAX)?;
    show_name(rt, b"", 0, 1)
}
