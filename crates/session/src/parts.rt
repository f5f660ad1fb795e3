ghost use Rattle.circuit.specs.Levels.{levels};
ghost use Rattle.circuit.specs.Rows.{Below};
ghost use Rattle.circuit.specs.declared.row.Row.{Row};
ghost use Rattle.head.specs.declared.reading.Reading.{Reading};
ghost use Rattle.level.specs.declared.level.Level.{Level};
ghost use Rattle.session.specs.History.{Entry};
ghost use Rattle.session.specs.Parts.{parts, same_level, Parted};
ghost use Rattle.session.specs.Refining.{named, name_in, refined};
ghost use Rattle.std.specs.Option.{unwrap_or};
ghost use Rattle.std.specs.Prelude.{◌≡◌, ℕ, ◌<◌, ◌≤◌, List, [], ◌∷◌, Option, Some, if◌then◌else◌, ◌&&◌, ◌==◌, length, map, take, drop, replicate};

use circuit::limit::MAX_LINES;
use level::level::Level;
use level::line_value::LineValue;

// The names of the new parts that one old part splits into, by what their lines read.
#[derive(Clone, Copy)]
struct Names {
    zero: Option<u16>,
    one: Option<u16>,
    undriven: Option<u16>,
}

impl Names {
    const NONE: Names = Names {
        zero: None,
        one: None,
        undriven: None,
    };

    // The name of the lines that read the level: the first of them to come.
    fn name(&mut self, level: Level, line: u16) -> u16
        ensures value { result ≡ unwrap_or (named self.old level) line }
        ensures kept { (other : Level) → named self.new other ≡ (if same_level other level then Some result else named self.old other) }
    {
        match level {
            Level::Zero => *self.zero.get_or_insert(line),
            Level::One => *self.one.get_or_insert(line),
            Level::X => *self.undriven.get_or_insert(line),
        }
    }
}

// The new part of a line, from its old part and what it reads; its name is kept for the lines after it.
fn name_line(names: &mut [Names], part: u16, level: Level, line: u16) -> u16
    requires { part < length names.old }
    ensures value { result ≡ unwrap_or (name_in names.old part level) line }
    ensures kept { (p : ℕ) (other : Level) → p < length names.old → name_in names.new p other ≡ (if (p == part) && same_level other level then Some result else name_in names.old p other) }
    ensures long { length names.new ≡ length names.old }
{
    names[part as usize].name(level, line)
}

fn clear(count: usize, cells: &mut [u16])
    requires { count ≤ length cells.old }
    ensures front { take count cells.new ≡ replicate count 0 }
    ensures rest { drop count cells.new ≡ drop count cells.old }
{
    cells[..count].fill(0);
}

// Puts all lines into the part of line 0.
pub(crate) fn first_parts(lines: usize, cells: &mut [u16])
    requires { lines ≤ length cells.old }
    ensures parts { (rows : List Row) → length rows ≡ lines → take lines cells.new ≡ parts rows [] }
    ensures rest { drop lines cells.new ≡ drop lines cells.old }
    ensures parted { (rows : List Row) (h : List Entry) → Parted rows h }
{
    clear(lines, cells);
}

// The parts after one more vector, from those before it and what the lines read.
pub(crate) fn refine<V: LineValue>(before: &[u16], values: &[V]) -> [u16; MAX_LINES]
    requires few { length values.now ≤ 1024 }
    requires sizes { length before.now ≡ length values.now }
    requires within { Below 1024 before.now }
    ensures value { take (length values.now) result ≡ refined before.now (map V.reads values.now) }
    ensures history { (rows : List Row) (h : List Entry) (w : List ℕ) (r : Option Reading) → before.now ≡ parts rows h → map V.reads values.now ≡ levels rows w → take (length rows) result ≡ parts rows (record { vector = w; reading = r } ∷ h) }
{
    let mut names = [Names::NONE; MAX_LINES];
    let mut after = [0; MAX_LINES];
    for (line, value) in values.iter().enumerate() {
        after[line] = name_line(&mut names, before[line], value.read(), line as u16);
    }
    after
}

// Puts the parts of the lines into their cells.
pub(crate) fn copy_parts(parts: &[u16], cells: &mut [u16])
    requires { length parts.now ≤ length cells.old }
    ensures parts { take (length parts.now) cells.new ≡ parts.now }
    ensures rest { drop (length parts.now) cells.new ≡ drop (length parts.now) cells.old }
{
    cells[..parts.len()].copy_from_slice(parts);
}
