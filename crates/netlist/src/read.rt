ghost use Rattle.std.specs.Prelude.{◌≡◌, ◌-◌, ◌≤◌, [], length, take, drop, replicate};
ghost use Rattle.circuit.specs.Rows.{blank};
ghost use Rattle.netlist.specs.Accepted.{Accepted, LinesOf, SameWithMore, MakesCircuit};
ghost use Rattle.netlist.specs.Cutting.{CutOneWay};
ghost use Rattle.netlist.specs.Definitions.{Gives};
ghost use Rattle.netlist.specs.Drawn.{Drawn};
ghost use Rattle.netlist.specs.Grammar.{Grammatical, RefusedInPlace};
ghost use Rattle.netlist.specs.Reading.{statements_from, rows_of, marked, with_input, reading, Marks, Answers};

use crate::define::define;
use crate::fault::NetlistFault;
use crate::mark::mark_outputs;
use crate::statements::Statements;
use crate::text::Text;
use circuit::row::{Row, input_count};

// A row for each line that the text defines, in the first rows; answers how many.
fn define_lines(text: Text, rows: &mut [Row]) -> Result<usize, NetlistFault>
    ensures { let bytes = text.entry.bytes.now in
        Gives (rows_of bytes (length rows.old) [] (statements_from bytes 0)) rows.new result }
{
    let mut count = 0;
    for statement in Statements::of(text) {
        count = define(text, rows, count, statement?)?;
    }
    Ok(count)
}

// What is judged after the last text line: each OUTPUT, and that there is an input.
fn finish(text: Text, rows: &mut [Row]) -> Result<(), NetlistFault>
    ensures { let bytes = text.entry.bytes.now in
        Marks (with_input bytes (marked bytes rows.old (statements_from bytes 0))) rows.new result }
{
    mark_outputs(text, rows)?;
    if input_count(rows) == 0 {
        return Err(NetlistFault::NoInput {
            place: text.bytes.len(),
        });
    }
    Ok(())
}

// As `read`, but the rows past the last line, and all rows of a refused text, are left as they come.
fn read_rows(bytes: &[u8], rows: &mut [Row]) -> Result<usize, NetlistFault>
    ensures { Gives (reading bytes.now (length rows.old)) rows.new result }
{
    let text = Text::new(bytes)?;
    let count = define_lines(text, rows)?;
    finish(text, &mut rows[..count])?;
    Ok(count)
}

fn blank_from(rows: &mut [Row], start: usize)
    requires { start ≤ length rows.old }
    ensures front { take start rows.new ≡ take start rows.old }
    ensures rest { drop start rows.new ≡ replicate (length rows.old - start) blank }
{
    rows[start..].fill(Row::BLANK);
}

// Each arm blanks its rows: one call for both stores them piece by piece, at twice the time.
fn read_or_blank(text: &[u8], rows: &mut [Row]) -> Result<usize, NetlistFault>
    ensures { Answers (reading text.now (length rows.old)) (length rows.old) rows.new result }
{
    match read_rows(text, rows) {
        Ok(count) => {
            blank_from(rows, count);
            Ok(count)
        }
        Err(fault) => {
            blank_from(rows, 0);
            Err(fault)
        }
    }
}

// Reads the netlist: a row for each line, in order, and how many there are. The rows past the last line
// are blank, and all of them where the text is refused. The last three clauses are laws of the form of a
// text: how its lines are cut into tokens, which lines are well formed, and at which token one is refused.
pub fn read(text: &[u8], rows: &mut [Row]) -> Result<usize, NetlistFault>
    ensures answers { Answers (reading text.now (length rows.old)) (length rows.old) rows.new result }
    ensures circuit { MakesCircuit rows.new result }
    ensures lines { Accepted result (λ n. LinesOf text.now (take n rows.new)) }
    ensures drawn { Accepted result (λ n. Drawn text.now (take n rows.new)) }
    ensures longer { Accepted result (λ n. SameWithMore text.now (length rows.old) (take n rows.new)) }
    ensures cut { CutOneWay }
    ensures grammar { Grammatical }
    ensures in_place { RefusedInPlace }
{
    read_or_blank(text, rows)
}
