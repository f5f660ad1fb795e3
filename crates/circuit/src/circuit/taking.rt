ghost use Rattle.circuit.specs.Rows.{line_count, lines, named, row_lawful, all_below, each_lawful, taken, Lawful, Lines, BlankAfter};
ghost use Rattle.std.specs.List.{list_all};
ghost use Rattle.std.specs.Prelude.{◌≡◌, [], nat_lt, not};

use crate::circuit::Circuit;
use crate::limit::{MAX_INPUTS, MAX_LINES};
use crate::row::{Row, input_count};

fn is_below(pin: u16, line: usize) -> bool
    ensures { result ≡ nat_lt pin line }
{
    usize::from(pin) < line
}

fn are_below(pins: &[u16], line: usize) -> bool
    ensures { result ≡ all_below line pins.now }
{
    pins.iter().all(|pin| is_below(*pin, line))
}

fn is_lawful(row: &Row, line: usize) -> bool
    ensures { result ≡ row_lawful line row.now }
{
    match row.kind {
        None => false,
        Some(kind) => kind.takes(usize::from(row.count)) && are_below(row.used_pins(), line),
    }
}

fn are_lawful(rows: &[Row]) -> bool
    ensures { result ≡ each_lawful rows.now }
{
    rows.iter()
        .enumerate()
        .all(|(line, row)| is_lawful(row, line))
}

// How many rows stand before the first blank one.
fn line_count(rows: &[Row]) -> usize
    ensures { result ≡ line_count rows.now }
{
    rows.iter().take_while(|row| !row.is_blank()).count()
}

fn are_blank(rows: &[Row]) -> bool
    ensures { result ≡ list_all (λ r. not (named r)) rows.now }
{
    rows.iter().all(|row| row.is_blank())
}

fn take_lines(rows: &[Row]) -> Circuit<'_>
    ensures { result.rows.now ≡ taken rows.now }
{
    let count = line_count(rows);
    let lines = &rows[..count];
    if count <= MAX_LINES
        && input_count(lines) <= MAX_INPUTS
        && are_lawful(lines)
        && are_blank(&rows[count..])
    {
        Circuit { rows: lines }
    } else {
        Circuit { rows: &[] }
    }
}

impl<'a> Circuit<'a> {
    // The circuit over the rows before the first blank one; of no lines where they are unlawful or a
    // row stands after a blank one.
    pub fn over(rows: &'a [Row]) -> Circuit<'a>
        ensures value { result.rows.now ≡ taken rows.now }
        ensures lawful { Lawful result.rows.now }
        ensures front { Lines rows.now (lines rows.now) }
        ensures accepts { Lawful (lines rows.now) → BlankAfter rows.now → result.rows.now ≡ lines rows.now }
        ensures refuses { (Lawful (lines rows.now) → BlankAfter rows.now → ⊥) → result.rows.now ≡ [] }
    {
        take_lines(rows)
    }
}
