// What the records that follow a record add up to, by the steps of a window's reading.
// `row` rows are passed before them, so that no search for the first row begins anew; their slots are lent as a part, not copied.
ghost use Rattle.loc_leaf.specs.Bytes.{Bytes};
ghost use Rattle.loc_calls.specs.Areas.{areas};
ghost use Rattle.loc_whole.specs.Totals.{Walkable, Totalled};

use crate::RunningSums;
use loc_calls::Areas;
use loc_leaf::Kind;
use loc_leaf::file::FILE_HEADER_LEN;
use loc_window::window::window_sums;
use loc_window::{LentWindow, Sums};

// The mark of each block: with the stamp 0 all are marked, with the stamp 1 none is.
const MARKS: [u64; 128] = [0; 128];

// Up to 256 records. With `each` the sums of each number of records are stored, else only totals are made.
pub fn totals(
    a: Areas<'_>,
    row_count: usize,
    base: u64,
    m: usize,
    row: usize,
    each: bool,
    sums: &mut RunningSums,
) -> Option<Sums>
    requires { Walkable a.slots.now a.rows.now row_count base m row }
    ensures { (c : Bytes) → Totalled (areas a.entry.slots.now a.entry.rows.now c) base m each sums.new.span result }
{
    let at = FILE_HEADER_LEN + 2 * base as usize;
    let end = at + 2 * m;
    let w = LentWindow {
        kind: Kind::Paired,
        bytes: &a.slots[at..end],
        m,
        mark: &MARKS,
        stamp: u64::from(!each),
        rows: a.rows,
        past: row_count,
        base,
    };
    window_sums(&w, row, &mut sums.body, &mut sums.span)
}
