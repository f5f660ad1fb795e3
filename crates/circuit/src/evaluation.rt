ghost use Rattle.std.specs.Prelude.{◌≡◌, ◌<◌, true, if◌then◌else◌, map, length, drop};
ghost use Rattle.std.specs.Slice.Iter.{iter_rest};
ghost use Rattle.circuit.specs.Kinds.{is_input};
ghost use Rattle.circuit.specs.Levels.{byte_level, row_level};
ghost use Rattle.circuit.specs.Rows.{row_lawful};
ghost use Rattle.circuit.specs.Vectors.{fits, Fit};

use crate::gate::gate;
use crate::kind::Kind;
use crate::row::Row;
use level::line_value::LineValue;
use std::slice::Iter;

fn input<V: LineValue>(byte: u8) -> V
    requires { fits V.KNOWS_X byte ≡ true }
    ensures { V.reads result ≡ byte_level byte }
{
    V::make(byte).unwrap()
}

// The value of a line, from the next byte of the vector or from the lines before it.
pub(crate) fn line<V: LineValue>(row: &Row, bytes: &mut Iter<'_, u8>, cells: &[V]) -> V
    requires sound { row_lawful (length cells.now) row.now ≡ true }
    requires fed { is_input row.now.kind ≡ true → 0 < length (iter_rest bytes.old) }
    requires fit { Fit V.KNOWS_X (iter_rest bytes.old) }
    ensures value { V.reads result ≡ row_level row.now (iter_rest bytes.old) 0 (map V.reads cells.now) }
    ensures rest { iter_rest bytes.new ≡ (if is_input row.now.kind then drop 1 (iter_rest bytes.old) else iter_rest bytes.old) }
{
    match row.kind {
        Some(Kind::Input) => input(*bytes.next().unwrap()),
        Some(kind) => gate(kind, row.used_pins(), cells),
        None => unreachable!(),
    }
}
