ghost use Rattle.head.specs.Meaning.{answered};
ghost use Rattle.head.specs.Sheets.{ByRows, listed, mark_reading, sheet};
ghost use Rattle.std.specs.Str.{bytes_eq};
ghost use Rattle.std.specs.Prelude.{◌≡◌, ◌-◌, ◌<◌, ◌≤◌, [], length, take, if◌then◌else◌, slice_index};

use crate::binary::check_binary;
use crate::fault::{HeadFault, OPEN};
use crate::head::Head;
use crate::reading::Reading;

// Answers from a list of readings: rows of `width` bytes and then H or L, one after another. A row with
// another last byte is skipped, and so is a short last row.
#[derive(Clone, Copy)]
pub struct Sheet<'a> {
    width: usize,
    rows: &'a [u8],
    ghost narrow: { width ≤ 256 },
}

// What a row's last byte says, if it is H or L.
fn reading(mark: u8) -> Option<Reading>
    ensures { result ≡ mark_reading mark }
{
    match mark {
        b'H' => Some(Reading::High),
        b'L' => Some(Reading::Low),
        _ => None,
    }
}

// What a row says, if it is not skipped and has the vector: a skipped one is skipped by its last byte alone.
fn answer(row: &[u8], vector: &[u8]) -> Option<Reading>
    ensures { let last = length row.now - 1 in result ≡ (if bytes_eq (take last row.now) vector.now then mark_reading (slice_index row.now last) else None) }
{
    let (mark, bytes) = row.split_last()?;
    let reading = reading(*mark)?;
    if bytes == vector { Some(reading) } else { None }
}

// What the first row says that is not skipped and has the vector.
fn find(rows: &[u8], width: usize, vector: &[u8]) -> Result<Reading, HeadFault>
    requires { width ≤ 256 }
    ensures { result ≡ answered 0 (listed width rows.now vector.now) }
{
    rows.chunks_exact(width + 1)
        .find_map(|row| answer(row, vector))
        .ok_or(OPEN)
}

impl<'a> Sheet<'a> {
    // The sheet over the rows; of width 0 and with no rows where the width is above 256.
    pub fn new(width: usize, rows: &'a [u8]) -> Sheet<'a>
        ensures takes { width ≤ 256 → (result.width ≡ width) × (result.rows.now ≡ rows.now) }
        ensures refuses { 256 < width → (result.width ≡ 0) × (result.rows.now ≡ []) }
        ensures answers { width ≤ 256 → ByRows width rows.now (⟦<Sheet<'a> as Head>⟧.meaning result) }
    {
        if width > 256 {
            return Sheet {
                width: 0,
                rows: &[],
            };
        }
        Sheet { width, rows }
    }
}

impl<'a> Head for Sheet<'a> {
    ghost meaning = { λ s. sheet s.width s.rows.now };

    ghost asked = { λ s v r t. t ≡ s };

    fn width(&self) -> usize {
        self.width
    }

    fn adaptors(&self) -> u8 {
        0
    }

    fn measure(&mut self, vector: &[u8]) -> Result<Reading, HeadFault> {
        check_binary(vector, self.width, 0)?;
        find(self.rows, self.width, vector)
    }
}
