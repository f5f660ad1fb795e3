ghost use Rattle.netlist.specs.Names.{bytes_of, name_of};
ghost use Rattle.std.specs.Prelude.{◌≡◌};

use circuit::row::{Row, Span};

// That part of the text, or the empty part where the text is too short.
pub(crate) fn part<'a>(text: &'a [u8], span: Span) -> &'a [u8]
    ensures { result.now ≡ bytes_of text.now span }
{
    let start = span.offset as usize;
    let end = start + usize::from(span.len);
    text.get(start..end).unwrap_or(&[])
}

// The name of a row's line: a part of the text that the row was read from, or the empty part where
// the text is too short.
pub fn name_of<'a>(text: &'a [u8], row: &Row) -> &'a [u8]
    ensures { result.now ≡ name_of text.now row.now }
{
    part(text, row.name)
}
