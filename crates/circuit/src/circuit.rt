ghost use Rattle.circuit.specs.Rows.{lawful};
ghost use Rattle.std.specs.Prelude.{◌≡◌, true};

use crate::row::Row;

mod bridges;
mod cone;
mod counts;
mod evaluating;
mod taking;

// A circuit, by its rows: none of them blank, within the limits, each gate with a lawful pin count
// and only pins below it. Clauses name the field: with a model in its place, a struct that also holds a
// `&mut` could not give its circuit back.
#[derive(Drop)]
pub struct Circuit<'a> {
    rows: &'a [Row],
    ghost lawful: { lawful rows.now ≡ true },
}
