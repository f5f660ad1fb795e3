ghost use Rattle.netlist.specs.Reading.{statements_from, output_word, marked_by, marked, Marks};
ghost use Rattle.std.specs.Prelude.{◌≡◌};

use crate::fault::NetlistFault;
use crate::keyword::{Port, port_named};
use crate::lines::find;
use crate::name::part;
use crate::statement::Statement;
use crate::statements::Statements;
use crate::text::Text;
use circuit::row::{Row, Span};

// The word that a statement marks as an output, if it marks one.
fn marked_word(text: Text, statement: Statement) -> Option<Span>
    ensures { result ≡ output_word text.entry.bytes.now statement }
{
    let Statement::Declaration(declaration) = statement else {
        return None;
    };
    match port_named(part(text.bytes, declaration.keyword)) {
        Some(Port::Output) => Some(declaration.word),
        _ => None,
    }
}

// Sets the mark of an OUTPUT; any other statement has none.
fn mark(text: Text, rows: &mut [Row], statement: Statement) -> Result<(), NetlistFault>
    ensures { let bytes = text.entry.bytes.now in
        Marks (marked_by bytes rows.old (output_word bytes statement)) rows.new result }
{
    let Some(word) = marked_word(text, statement) else {
        return Ok(());
    };
    let line = find(text, rows, word).ok_or(NetlistFault::UndefinedOutput {
        place: word.offset as usize,
    })?;
    rows[line].output = true;
    Ok(())
}

// Marks the outputs, which may stand before the lines that they name.
pub(crate) fn mark_outputs(text: Text, rows: &mut [Row]) -> Result<(), NetlistFault>
    ensures { let bytes = text.entry.bytes.now in
        Marks (marked bytes rows.old (statements_from bytes 0)) rows.new result }
{
    for statement in Statements::of(text) {
        mark(text, rows, statement?)?;
    }
    Ok(())
}
