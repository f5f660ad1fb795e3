ghost use Rattle.circuit.specs.Rows.{Below};
ghost use Rattle.circuit.specs.declared.row.Row.{Row};
ghost use Rattle.session.specs.History.{Entry};
ghost use Rattle.session.specs.Leading.{part_count, second_line, Led};
ghost use Rattle.std.specs.Option.{unwrap_or};
ghost use Rattle.std.specs.Prelude.{◌≡◌, ℕ, ◌<◌, ◌≤◌, ◌==◌, List, Some, None, if◌then◌else◌, length, slice_index_or};

use circuit::limit::MAX_LINES;

// How many parts there are: each is named by one of its lines.
#[tactic(auto, using(crate::proofs::Leads::named_more))]
pub(crate) fn part_count(parts: &[u16]) -> usize
    ensures value { result ≡ part_count parts.now }
    ensures led { (rows : List Row) (h : List Entry) → Led rows h }
{
    let mut total = 0;
    for (line, part) in parts.iter().enumerate() {
        if *part as usize == line {
            total += 1;
        }
    }
    total
}

// Puts the line into the cell unless one is there.
fn keep_first(cells: &mut [Option<u16>], place: u16, line: u16)
    requires { place < length cells.old }
    ensures kept { (p : ℕ) → p < length cells.old → slice_index_or cells.new p None ≡ (if p == place then Some (unwrap_or (slice_index_or cells.old p None) line) else slice_index_or cells.old p None) }
    ensures long { length cells.new ≡ length cells.old }
{
    cells[place as usize].get_or_insert(line);
}

// For each line that names a part, the smallest other line of the part.
pub(crate) fn second_lines(parts: &[u16]) -> [Option<u16>; MAX_LINES]
    requires few { length parts.now ≤ 1024 }
    requires within { Below 1024 parts.now }
    ensures { (p : ℕ) → p < 1024 → slice_index_or result p None ≡ second_line parts.now p }
{
    let mut seconds = [None; MAX_LINES];
    for (line, part) in parts.iter().enumerate() {
        if *part as usize != line {
            keep_first(&mut seconds, *part, line as u16);
        }
    }
    seconds
}
