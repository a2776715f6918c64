// The sums of a window's records, one after the other and by blocks of eight.
// `base` records stand before the window; record k of the window is numbered base + k + 1. Its rows stand before place `past`.
ghost use Rattle.std.specs.Prelude.{◌≡◌, ◌+◌, ◌*◌, ◌<◌, ◌≤◌, length};
ghost use Rattle.loc_window.specs.Window.{sums_of, Ready, SumsStored, SlotStepped, Summing, WindowSummed, Copied};

use crate::blocks::blocks;
use crate::records::records;
use crate::{LentWindow, Sums};
use loc_leaf::Kind;
use loc_leaf::slices::copy;

// Where the marked blocks from one on end, of `most` blocks.
fn marked_end(mark: &[u64], stamp: u64, from: usize, most: usize) -> usize
    requires { (from < most) × (most ≤ length mark.now) }
    ensures { (from < result) × (result ≤ most) }
{
    for b in from + 1..most {
        if mark[b] != stamp {
            return b;
        }
    }
    most
}

// The records of the marked blocks that follow, one by one. A last block that is not whole counts as marked.
fn marked_records(w: &LentWindow<'_>, s: Sums, body: &mut [u64], span: &mut [u64]) -> Option<Sums>
    requires mark_len { (length w.now.mark.now ≡ 128) × (8 * s.block < w.now.m) × Ready w.now.kind w.now.base w.now.bytes.now w.now.rows.now w.now.past (8 * s.block) w.now.m s body.old span.old }
    requires sums_stored { SumsStored w.now.kind w.now.base w.now.bytes.now w.now.rows.now w.now.mark.now w.now.stamp (8 * s.block) body.old span.old }
    ensures { SlotStepped w.now.kind w.now.base w.now.bytes.now w.now.rows.now w.now.mark.now w.now.stamp s.block w.now.m body.new span.new result }
{
    let from = s.block;
    let end = marked_end(w.mark, w.stamp, from, (w.m + 7) / 8);
    let n = (8 * end).min(w.m);
    let t = Sums { block: end, ..s };
    match w.kind {
        Kind::Paired => records::<true>(w, 8 * from, n, t, body, span),
        Kind::Single => records::<false>(w, 8 * from, n, t, body, span),
    }
}

// The sums some blocks further on in the window's first m records, or that one of them lacks its row.
// The sums of marked blocks are stored one by one, those of others are not.
pub fn slot_step(w: &LentWindow<'_>, s: Sums, body: &mut [u64], span: &mut [u64]) -> Option<Sums>
    requires mark_len { (length w.now.mark.now ≡ 128) × (8 * s.block < w.now.m) × Ready w.now.kind w.now.base w.now.bytes.now w.now.rows.now w.now.past (8 * s.block) w.now.m s body.old span.old }
    requires sums_stored { SumsStored w.now.kind w.now.base w.now.bytes.now w.now.rows.now w.now.mark.now w.now.stamp (8 * s.block) body.old span.old }
    ensures { SlotStepped w.now.kind w.now.base w.now.bytes.now w.now.rows.now w.now.mark.now w.now.stamp s.block w.now.m body.new span.new result }
{
    let t = blocks(w, w.m / 8, s)?;
    if w.m <= 8 * t.block {
        return Some(t);
    }
    marked_records(w, t, body, span)
}

// The sums of a window's first m records, whose rows stand from place `row` on, or that one of them lacks its row.
pub fn window_sums(
    w: &LentWindow<'_>,
    row: usize,
    body: &mut [u64],
    span: &mut [u64],
) -> Option<Sums>
    requires { (length w.now.mark.now ≡ 128) × Summing w.now.kind (length body.old) w.now.base w.now.m w.now.bytes.now w.now.rows.now w.now.past w.now.mark.now w.now.stamp 0 (sums_of 0 0 row 0) body.old span.old }
    ensures { WindowSummed w.now.kind w.now.base w.now.bytes.now w.now.rows.now w.now.mark.now w.now.stamp w.now.m body.new span.new result }
{
    let mut s = Sums {
        strides: 0,
        spans: 0,
        row,
        block: 0,
    };
    // no range says it: a step goes on by as many blocks as it passes
    while 8 * s.block < w.m {
        s = slot_step(w, s, body, span)?;
    }
    Some(s)
}

// The slots of a window: n bytes from a place on, over the front of the copy.
pub fn copy_slots(slots: &[u8], at: usize, n: usize, out: &mut [u8])
    requires { (at + n ≤ length slots.now) × (n ≤ length out.old) }
    ensures { Copied slots.now at n out.old out.new }
{
    copy(&slots[at..at + n], &mut out[..n]);
}
