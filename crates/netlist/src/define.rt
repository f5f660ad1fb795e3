ghost use Rattle.std.specs.Prelude.{◌≤◌, length, take};
ghost use Rattle.netlist.specs.Definitions.{stored, after_statement, Gives};

use crate::fault::NetlistFault;
use crate::lines::Lines;
use crate::statement::Statement;
use crate::text::Text;
use circuit::limit::MAX_LINES;
use circuit::row::Row;

// Puts a row after the first `count`, and answers how many there are then.
fn store(rows: &mut [Row], count: usize, row: Row) -> Result<usize, NetlistFault>
    requires { count ≤ length rows.old }
    ensures { Gives (stored (length rows.old) (take count rows.old) row) rows.new result }
{
    let place = row.name.offset as usize;
    if count >= MAX_LINES {
        return Err(NetlistFault::TooManyLines { place });
    }
    if count >= rows.len() {
        return Err(NetlistFault::NoRow { place });
    }
    rows[count] = row;
    Ok(count + 1)
}

// Puts the row that a statement defines, if it defines one, after the first `count`, and answers how many
// there are then.
pub(crate) fn define(
    text: Text,
    rows: &mut [Row],
    count: usize,
    statement: Statement,
) -> Result<usize, NetlistFault>
    requires { (count ≤ length rows.old) × (count ≤ 1024) }
    ensures { let bytes = text.entry.bytes.now in
        Gives (after_statement bytes (length rows.old) (take count rows.old) statement) rows.new result }
{
    let lines = Lines {
        text,
        rows: &rows[..count],
    };
    match lines.row_of(statement)? {
        None => Ok(count),
        Some(row) => store(rows, count, row),
    }
}
