// The sums of whole blocks by their words, up to a marked one.
// Each kind has its own instance of the loops, so that no block asks which kind it is of.
ghost use Rattle.std.specs.Prelude.{◌≡◌, true, ◌++◌, ◌+◌, ◌*◌, ◌/◌, ◌^◌, ◌<◌, ◌≤◌, length};
ghost use Rattle.loc_leaf.specs.Bytes.{bytes};
ghost use Rattle.loc_leaf.specs.Slot.{needs_row, inline};
ghost use Rattle.loc_leaf.specs.Block.{slot_bytes, row_mask, inline_strides, inline_spans};
ghost use Rattle.loc_window.specs.Window.{kind_of, BlockReady, BlockStepped, PlainBlocks, BlocksPassed};

use crate::rows::{find_row, row_value_at, word_at};
use crate::{LentWindow, Sums, kind_of};
use loc_leaf::loc_simd::{
    first_total, lowest_record, none_empty, none_zero, row_mask, second_total, strides_total,
};
use loc_leaf::{Kind, Value};

// Whether no record of the block needs a row.
fn none_lacking<const PAIRED: bool>(lo: u64, hi: u64) -> bool
    ensures { result ≡ true → row_mask (kind_of PAIRED) (bytes 8 lo ++ bytes 8 hi) 0 8 ≡ 0 }
{
    if PAIRED {
        none_zero(lo, hi)
    } else {
        none_empty(lo, hi)
    }
}

// The strides that the block's bytes say.
fn block_strides<const PAIRED: bool>(lo: u64, hi: u64) -> u64
    ensures { (result ≡ inline_strides (kind_of PAIRED) (bytes 8 lo ++ bytes 8 hi) 0 8) × (result < 2 ^ 19) }
{
    if PAIRED {
        first_total(lo, hi)
    } else {
        strides_total(lo, hi)
    }
}

// The spans that they say, none where single.
fn block_spans<const PAIRED: bool>(lo: u64, hi: u64) -> u64
    ensures { (result ≡ inline_spans (kind_of PAIRED) (bytes 8 lo ++ bytes 8 hi) 0 8) × (result < 2 ^ 19) }
{
    if PAIRED { second_total(lo, hi) } else { 0 }
}

// What the bytes of a record say that needs a row: a single one's are all 0.
fn bytes_value<const PAIRED: bool>(bytes: &[u8], j: usize) -> Value
    requires { (2 * j + 1 < length bytes.now) × (j < 1024) × (needs_row (kind_of PAIRED) (slot_bytes bytes.now j) ≡ true) }
    ensures { result ≡ inline (kind_of PAIRED) (slot_bytes bytes.now j) }
{
    if PAIRED {
        Value {
            strides: bytes[2 * j] as u32,
            spans: bytes[2 * j + 1] as u32,
        }
    } else {
        Value {
            strides: 0,
            spans: 0,
        }
    }
}

// The sums after the blocks from one on that are neither marked nor need a row.
fn plain<const PAIRED: bool>(w: &LentWindow<'_>, full: usize, s: Sums) -> Sums
    requires { (s.block ≤ full) × (full ≤ 128) × (full ≤ length w.now.mark.now) × (16 * full ≤ length w.now.bytes.now) × (s.strides < 2 ^ 60) × (s.spans < 2 ^ 60) }
    ensures { PlainBlocks (kind_of PAIRED) w.now.bytes.now w.now.mark.now w.now.stamp full s result }
{
    let mut t = s;
    for b in s.block..full {
        let lo = word_at(w.bytes, 16 * b);
        let hi = word_at(w.bytes, 16 * b + 8);
        if w.mark[b] == w.stamp || !none_lacking::<PAIRED>(lo, hi) {
            t.block = b;
            return t;
        }
        t.strides += block_strides::<PAIRED>(lo, hi);
        t.spans += block_spans::<PAIRED>(lo, hi);
    }
    t.block = full;
    t
}

// What a mask says of the records after record z: its bits above bit z.
pub fn mask_after(mask: u64, z: usize) -> u64
    requires { z < 8 }
    ensures { result ≡ mask / 2 ^ (z + 1) }
{
    mask >> (z as u64 + 1)
}

// One block of which some records need rows: its bytes added up, then each such record's row put in place of its bytes.
fn with_rows<const PAIRED: bool>(w: &LentWindow<'_>, s: Sums) -> Option<Sums>
    requires { BlockReady (kind_of PAIRED) w.now.base w.now.bytes.now w.now.rows.now w.now.past (s.block + 1) s }
    ensures { BlockStepped (kind_of PAIRED) w.now.base w.now.bytes.now w.now.rows.now s.block result }
{
    let kind = kind_of::<PAIRED>();
    let lo = word_at(w.bytes, 16 * s.block);
    let hi = word_at(w.bytes, 16 * s.block + 8);
    let mut x = s.strides + block_strides::<PAIRED>(lo, hi);
    let mut y = s.spans + block_spans::<PAIRED>(lo, hi);
    let mut row = s.row;
    let mut left = row_mask(kind, lo, hi);
    let mut j = 8 * s.block;
    // no range says it: each turn goes on to the next bit that is set
    while left != 0 {
        let z = lowest_record(left as u8) as usize;
        j += z;
        let i = find_row::<PAIRED>(w, row, w.base + j as u64 + 1)?;
        let v = row_value_at(kind, w.rows, i);
        let old = bytes_value::<PAIRED>(w.bytes, j);
        x = x - old.strides as u64 + v.strides as u64;
        y = y - old.spans as u64 + v.spans as u64;
        row = i + 1;
        j += 1;
        left = mask_after(left, z);
    }
    Some(Sums {
        strides: x,
        spans: y,
        row,
        block: s.block + 1,
    })
}

// The sums up to a marked block or to the end of the whole blocks.
fn blocks_of<const PAIRED: bool>(w: &LentWindow<'_>, full: usize, s: Sums) -> Option<Sums>
    requires { BlockReady (kind_of PAIRED) w.now.base w.now.bytes.now w.now.rows.now w.now.past full s × (full ≤ length w.now.mark.now) }
    ensures { BlocksPassed (kind_of PAIRED) w.now.base w.now.bytes.now w.now.rows.now w.now.mark.now w.now.stamp s.block full result }
{
    let mut t = plain::<PAIRED>(w, full, s);
    // no range says it: each turn goes on to the next block that needs rows
    while t.block < full && w.mark[t.block] != w.stamp {
        let u = with_rows::<PAIRED>(w, t)?;
        t = plain::<PAIRED>(w, full, u);
    }
    Some(t)
}

// The sums up to a marked block, by kind.
pub fn blocks(w: &LentWindow<'_>, full: usize, s: Sums) -> Option<Sums>
    requires { BlockReady w.now.kind w.now.base w.now.bytes.now w.now.rows.now w.now.past full s × (full ≤ length w.now.mark.now) }
    ensures { BlocksPassed w.now.kind w.now.base w.now.bytes.now w.now.rows.now w.now.mark.now w.now.stamp s.block full result }
{
    match w.kind {
        Kind::Paired => blocks_of::<true>(w, full, s),
        Kind::Single => blocks_of::<false>(w, full, s),
    }
}
