// The record of a part that has the window's span t, counted from 0: by halves of its blocks, then record by record.
// What is passed is passed for good, so that the halves together go through the part once.
ghost use Rattle.std.specs.Prelude.{◌<◌, length};
ghost use Rattle.loc_leaf.specs.Bytes.{Bytes};
ghost use Rattle.loc_calls.specs.Areas.{areas};
ghost use Rattle.loc_calls.specs.Lent.{seen};
ghost use Rattle.loc_span_at.specs.Find.{Holding, Halved, FirstAbove, Crossed};

use crate::{Part, Span};
use loc_calls::Areas;
use loc_whole::RunningSums;
use loc_whole::totals::totals;

// The half of the part's blocks that has the span. No row is lacking there, so that an answer without sums does not come.
fn half(a: Areas<'_>, row_count: usize, t: u64, p: Part, sums: &mut RunningSums) -> Part
    requires { Holding (seen a) row_count t p × (8 < p.m) }
    ensures { Halved (seen a.entry) row_count t p result }
{
    let m = 8 * ((p.m + 7) / 16);
    match totals(a, row_count, p.base, m, p.row, false, sums) {
        Some(s) => {
            let before = p.before + s.spans;
            if t < before {
                return Part { m, ..p };
            }
            Part {
                base: p.base + m as u64,
                m: p.m - m,
                row: s.row,
                before,
            }
        }
        None => p,
    }
}

// The first of m sums, the next one of which is above t.
fn first_above(sums: &[u64], m: usize, t: u64) -> usize
    requires { m < length sums.now }
    ensures { FirstAbove sums.now m t result }
{
    for k in 0..m {
        if t < sums[k + 1] {
            return k;
        }
    }
    m
}

// The record of a part of at most a block.
fn record_in(a: Areas<'_>, row_count: usize, t: u64, p: Part, sums: &mut RunningSums) -> Span
    requires { Holding (seen a) row_count t p }
    ensures { Crossed (seen a.entry) p.base p.m p.before t result }
{
    totals(a, row_count, p.base, p.m, p.row, true, sums);
    let left = t - p.before;
    let k = first_above(&sums.span, p.m, left);
    Span {
        record: p.base + k as u64 + 1,
        index: left - sums.span[k],
    }
}

// The record of a part of up to a quarter of a window.
pub fn find(a: Areas<'_>, row_count: usize, t: u64, part: Part, sums: &mut RunningSums) -> Span
    requires { Holding (seen a) row_count t part }
    ensures { (c : Bytes) → Crossed (areas a.entry.slots.now a.entry.rows.now c) part.base part.m part.before t result }
{
    let mut p = part;
    // no count: each turn halves the part
    while 8 < p.m {
        p = half(a, row_count, t, p, sums);
    }
    record_in(a, row_count, t, p, sums)
}
