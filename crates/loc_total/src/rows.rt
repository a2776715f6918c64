// Rows in place of the bytes of slots that need one, from the last row down to the first record.
// The rows of the last records are the last rows, so that few are looked at.
ghost use Rattle.std.specs.Prelude.{◌≡◌, ◌+◌, ◌<◌};
ghost use Rattle.loc_leaf.specs.Rows.{row_list, number_in};
ghost use Rattle.loc_total.specs.Total.{PartReady, PartSums};

use crate::{Part, Total};
use loc_leaf::delta_loc::{inline_value, needs_row};
use loc_window::rows::{row_number, row_value_at};

// The row at a place, which is numbered id, in place of its record's bytes; of a record that is not here, or needs none, it changes nothing.
fn with_row(p: &Part<'_>, row: usize, id: u64, t: Total) -> Total
    requires rows_ready { PartReady p.now × PartSums p.now (row + 1) t }
    requires row_bound { (row < p.now.row_count) × (id ≡ number_in (row_list p.now.kind p.now.rows.now) row) × (p.now.base < id) }
    ensures { PartSums p.now row result }
{
    let j = id - p.base - 1;
    if p.m as u64 <= j {
        return t;
    }
    let i = j as usize;
    let low = p.bytes[2 * i];
    let high = p.bytes[2 * i + 1];
    if !needs_row(p.kind, low, high) {
        return t;
    }
    let v = row_value_at(p.kind, p.rows, row);
    let s = inline_value(p.kind, low, high);
    Total {
        strides: t.strides - s.strides as u64 + v.strides as u64,
        spans: t.spans - s.spans as u64 + v.spans as u64,
        lacking: t.lacking - 1,
    }
}

// All rows that are numbered above `base`.
pub fn with_rows(p: &Part<'_>, slots: Total) -> Total
    requires { PartReady p.now × PartSums p.now p.now.row_count slots }
    ensures { PartSums p.now 0 result }
{
    let mut t = slots;
    for row in (0..p.row_count).rev() {
        let id = row_number(p.kind, p.rows, row);
        if id <= p.base {
            return t;
        }
        t = with_row(p, row, id, t);
    }
    t
}
