// Rows of a window: their numbers and values where they stand, and the row of a record.
// Records are taken in their order, so the rows passed only grow, and a search goes on from them.
ghost use Rattle.std.specs.Prelude.{◌≡◌, [], ◌+◌, ◌^◌, ◌<◌, ◌≤◌, length, get_or, take, drop};
ghost use Rattle.loc_leaf.specs.Area.{fill};
ghost use Rattle.loc_leaf.specs.Bytes.{bytes, number_at};
ghost use Rattle.loc_leaf.specs.Kind.{row_width};
ghost use Rattle.loc_leaf.specs.Rows.{row_list, row_value, number_in};
ghost use Rattle.loc_window.specs.Window.{kind_of, Below, RowsBefore, FoundRow};

use crate::{LentWindow, kind_of};
use loc_leaf::delta_loc::{ROW_SPANS, ROW_STRIDES, row_width};
use loc_leaf::file::FILE_HEADER_LEN;
use loc_leaf::{Kind, Value};

// N bytes of a slice.
fn array_at<const N: usize>(s: &[u8], at: usize) -> [u8; N]
    requires { at + N ≤ length s.now }
    ensures { result ≡ take N (drop at s.now) }
{
    *s[at..at + N].first_chunk().unwrap()
}

// Eight bytes of a slice as a word.
pub fn word_at(s: &[u8], at: usize) -> u64
    requires { at + 8 ≤ length s.now }
    ensures { bytes 8 result ≡ take 8 (drop at s.now) }
{
    u64::from_le_bytes(array_at(s, at))
}

// Four bytes of a slice as a number.
fn half_at(s: &[u8], at: usize) -> u32
    requires { at + 4 ≤ length s.now }
    ensures { result ≡ number_at 4 at s.now }
{
    u32::from_le_bytes(array_at(s, at))
}

// The number of the row at a place.
pub fn row_number(kind: Kind, rows: &[u8], row: usize) -> u64
    requires { row < fill (row_width kind) rows.now }
    ensures { result ≡ number_in (row_list kind rows.now) row }
{
    word_at(rows, FILE_HEADER_LEN + row_width(kind) * row)
}

// The value of the row at a place.
pub fn row_value_at(kind: Kind, rows: &[u8], row: usize) -> Value
    requires { row < fill (row_width kind) rows.now }
    ensures { (result ≡ row_value kind (get_or (row_list kind rows.now) row [])) × (result.strides < 2 ^ 32) × (result.spans < 2 ^ 32) }
{
    match kind {
        Kind::Paired => Value {
            strides: half_at(rows, FILE_HEADER_LEN + ROW_STRIDES + 16 * row),
            spans: half_at(rows, FILE_HEADER_LEN + ROW_SPANS + 16 * row),
        },
        Kind::Single => Value {
            strides: half_at(rows, FILE_HEADER_LEN + ROW_STRIDES + 12 * row),
            spans: 0,
        },
    }
}

// The place of a record's row, which stands before place `past`, searched from the rows passed on; none where there is none.
fn search_row<const PAIRED: bool>(w: &LentWindow<'_>, passed: usize, id: u64) -> Option<usize>
    requires { RowsBefore (kind_of PAIRED) w.now.rows.now id w.now.past × Below (row_list (kind_of PAIRED) w.now.rows.now) passed id }
    ensures { FoundRow (kind_of PAIRED) w.now.rows.now w.now.past id result }
{
    let kind = kind_of::<PAIRED>();
    for row in passed..w.past {
        let number = row_number(kind, w.rows, row);
        if number == id {
            return Some(row);
        }
        if id < number {
            return None;
        }
    }
    None
}

// The same, where the next row is looked at first.
pub fn find_row<const PAIRED: bool>(w: &LentWindow<'_>, passed: usize, id: u64) -> Option<usize>
    requires { RowsBefore (kind_of PAIRED) w.now.rows.now id w.now.past × Below (row_list (kind_of PAIRED) w.now.rows.now) passed id }
    ensures { FoundRow (kind_of PAIRED) w.now.rows.now w.now.past id result }
{
    if passed < w.past && row_number(kind_of::<PAIRED>(), w.rows, passed) == id {
        return Some(passed);
    }
    search_row::<PAIRED>(w, passed, id)
}
