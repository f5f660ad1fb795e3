ghost use Rattle.std.specs.Prelude.{◌≡◌, ◌<◌, fold, map, length};
ghost use Rattle.circuit.specs.Gates.{gate_level, inverts, joined, ReadsAs};
ghost use Rattle.circuit.specs.Levels.{pin_level};
ghost use Rattle.circuit.specs.Rows.{Below};
ghost use Rattle.level.specs.declared.level.Level.{Level};

use crate::kind::Kind;
use level::line_value::LineValue;

fn is_inverting(kind: Kind) -> bool
    ensures { result ≡ inverts kind }
{
    matches!(kind, Kind::Nand | Kind::Nor | Kind::Xnor | Kind::Not)
}

// The first value joined with those of the rest, one after another.
fn join<V: LineValue, F: Fn(V, V) -> V>(op: F, first: V, rest: &[u16], cells: &[V]) -> V
    requires callable { F.IsAlwaysCallable op }
    requires below { Below (length cells.now) rest.now }
    ensures { (table : Level → Level → Level) → ReadsAs V.reads (F.post op) table → V.reads result ≡ fold table (V.reads first) (map (pin_level (map V.reads cells.now)) rest.now) }
{
    let mut all = first;
    for pin in rest {
        all = op(all, cells[usize::from(*pin)]);
    }
    all
}

// What the pins come to before a gate inverts.
fn join_all<V: LineValue>(kind: Kind, pins: &[u16], cells: &[V]) -> V
    requires some { 0 < length pins.now }
    requires below { Below (length cells.now) pins.now }
    ensures { V.reads result ≡ joined kind (map (pin_level (map V.reads cells.now)) pins.now) }
{
    let [pin, rest @ ..] = pins else {
        unreachable!()
    };
    let first = cells[*pin as usize];
    match kind {
        Kind::And | Kind::Nand => join(V::and, first, rest, cells),
        Kind::Or | Kind::Nor => join(V::or, first, rest, cells),
        Kind::Xor | Kind::Xnor => join(V::xor, first, rest, cells),
        Kind::Not | Kind::Buff | Kind::Input => first,
    }
}

// What a gate drives, from the values of the lines before it.
pub(crate) fn gate<V: LineValue>(kind: Kind, pins: &[u16], cells: &[V]) -> V
    requires some { 0 < length pins.now }
    requires below { Below (length cells.now) pins.now }
    ensures { V.reads result ≡ gate_level kind (map (pin_level (map V.reads cells.now)) pins.now) }
{
    let all = join_all(kind, pins, cells);
    if is_inverting(kind) { all.not() } else { all }
}
