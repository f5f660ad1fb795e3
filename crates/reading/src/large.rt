use crate::{STALE, show};
use circuit::row::Row;
use std::alloc::{AllocError, Global};

// The text INPUT(i0000), INPUT(i0001), .. of 13 bytes a line, and then g0000 = NOT(i0000), g0001 = NOT(i0000), ..
// of 19 bytes a line.
fn many(heap: Global, inputs: u16, gates: u16) -> Result<String, AllocError> {
    let mut text = String::new(heap);
    for i in 0..inputs {
        text.push_str(format!(in heap; "INPUT(i{i:04})\n")?.as_str())?;
    }
    for i in 0..gates {
        text.push_str(format!(in heap; "g{i:04} = NOT(i0000)\n")?.as_str())?;
    }
    Ok(text)
}

fn show_many(
    rt: &(impl Print + AllocGlobal),
    title: &str,
    inputs: u16,
    gates: u16,
    last: &str,
    count: usize,
) -> anyhow::Result<()> {
    let mut text = many(rt.alloc(), inputs, gates)?;
    text.push_str(last)?;
    let mut rows = [STALE; 1030];
    show(rt, title, text.as_bytes(), &mut rows[0..count.min(1030)])?;
    Ok(())
}

pub(crate) fn show_limits(rt: &(impl Print + AllocGlobal)) -> anyhow::Result<()> {
    show_many(rt, "256 inputs", 256, 0, "", 256)?;
    show_many(rt, "257 inputs", 256, 0, "INPUT(j)", 300)?;
    show_many(rt, "257 inputs and 256 rows", 256, 0, "INPUT(j)\n(", 256)?;
    show_many(
        rt,
        "257th input defined before",
        256,
        0,
        "INPUT(i0007)",
        300,
    )?;
    show_many(
        rt,
        "256 inputs, then a gate",
        256,
        0,
        "x = AND(i0000, i0255)\nOUTPUT(x)",
        300,
    )?;
    show_many(
        rt,
        "256 inputs and no row for a gate",
        256,
        0,
        "x = AND(i0000, i0255)",
        256,
    )?;
    show_many(
        rt,
        "1024 lines",
        1,
        1023,
        "OUTPUT(g1022)\nOUTPUT(i0000)",
        1030,
    )?;
    show_many(rt, "1025 lines", 1, 1023, "x = NOT(g1022)", 1030)?;
    show_many(
        rt,
        "1025 lines and 1024 rows",
        1,
        1023,
        "x = NOT(g1022)",
        1024,
    )?;
    show_many(
        rt,
        "1025th line with an undefined pin",
        1,
        1023,
        "x = NOT(x)",
        1024,
    )?;
    show_many(
        rt,
        "1025th line is the 257th input",
        256,
        768,
        "INPUT(x)",
        1030,
    )?;
    show_many(
        rt,
        "1025th line is the 256th input",
        255,
        769,
        "INPUT(x)",
        1030,
    )?;
    show_many(rt, "257th input after gates", 256, 3, "INPUT(j)", 300)?;
    show_many(
        rt,
        "1025th line of two pins",
        2,
        1022,
        "x = AND(i0000, i0001)",
        1030,
    )?;
    show_many(rt, "1023 rows for 1024 lines", 1, 1023, "", 1023)
}

fn show_long(
    rt: &(impl Print + AllocGlobal),
    title: &str,
    head: &[u8],
    byte: u8,
    length: usize,
) -> anyhow::Result<()> {
    let mut text = Vec::new(rt.alloc());
    text.extend_from_slice(head)?;
    text.resize(length, byte)?;
    let mut rows: [Row; 2] = [STALE; 2];
    show(rt, title, text.as_slice(), &mut rows)?;
    Ok(())
}

pub(crate) fn show_lengths(rt: &(impl Print + AllocGlobal)) -> anyhow::Result<()> {
    show_long(rt, "1048576 bytes", b"INPUT(a)\n", b' ', 1_048_576)?;
    show_long(rt, "1048577 bytes", b"INPUT(a)\n", b' ', 1_048_577)?;
    show_long(rt, "too long and out of form", b"(", b'(', 1_048_577)?;
    show_long(rt, "far too long", b"INPUT(a)\n#", b'x', 3_000_000)?;
    show_long(
        rt,
        "longest comment",
        b"INPUT(a)\nOUTPUT(a)#",
        b'#',
        1_048_576,
    )?;
    show_long(rt, "longest blank text", b"", b'\n', 1_048_576)?;
    show_long(rt, "one blank too many", b"", b' ', 1_048_577)?;
    show_long(rt, "longest word", b"INPUT(a)\n", b'x', 1_048_576)
}
