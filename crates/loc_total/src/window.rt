// What the records that follow a record add up to: by their slots, all at once, then by the rows that some of them need.
// Their slots are lent as a part, not copied.
ghost use Rattle.loc_leaf.specs.Bytes.{Bytes};
ghost use Rattle.loc_calls.specs.Areas.{areas};
ghost use Rattle.loc_window.specs.Window.{window_areas};
ghost use Rattle.loc_total.specs.Total.{Walkable, Totalled, PartReady};

use crate::rows::with_rows;
use crate::slots::slots_total;
use crate::{Part, Total};
use loc_calls::Areas;
use loc_leaf::Kind;
use loc_leaf::file::FILE_HEADER_LEN;

// The records of a part.
fn part_total(p: &Part<'_>) -> Total
    requires { PartReady p.now }
    ensures { Totalled p.now.kind (window_areas p.now.base p.now.bytes.now p.now.rows.now) p.now.base p.now.m result }
{
    with_rows(p, slots_total(p.kind, p.bytes, p.m))
}

// What the m records after record `base` add up to, and how many of them lack their row.
pub fn window_total(kind: Kind, a: Areas<'_>, row_count: usize, base: u64, m: usize) -> Total
    requires { Walkable kind a.slots.now a.rows.now row_count base m }
    ensures { (c : Bytes) → Totalled kind (areas a.entry.slots.now a.entry.rows.now c) base m result }
{
    let at = FILE_HEADER_LEN + 2 * base as usize;
    let end = at + 2 * m;
    part_total(&Part {
        kind,
        bytes: &a.slots[at..end],
        m,
        rows: a.rows,
        row_count,
        base,
    })
}
