// Strides, slots, the checkpoint and cut rules, and overflow rows (delta_loc.rs, leaf part).
// A row area is handed over whole; its published rows are counted here.
ghost use Rattle.std.specs.Prelude.{◌≡◌, cond, [], ◌∷◌, ◌+◌, ◌-◌, ◌*◌, ◌^◌, ◌≤◌, ◌<◌, min, max, IfOk};
ghost use Rattle.loc_leaf.specs.Bytes.{byte};
ghost use Rattle.loc_leaf.specs.Answers.{answer_of};
ghost use Rattle.loc_leaf.specs.Area.{fill};
ghost use Rattle.loc_leaf.specs.Kind.{row_width, checkpoint_width, window_of, within_window};
ghost use Rattle.loc_leaf.specs.Slot.{strides_from, below, slot, needs_row, inline, slot_at, checkpoint_rule};
ghost use Rattle.loc_leaf.specs.Rows.{row_value, row_list, rows_up_to_by_halves};
ghost use Rattle.loc_leaf.specs.Cut.{agrees, overflows, matches, cut_for};

use crate::file::{FILE_HEADER_LEN, byte_at, published, u32_at, u64_at};
use crate::refusal::Refusal;
use crate::{Kind, Value};

// Bytes of a stride.
pub const IDX_STRIDE: u64 = 8;

// Records of a window.
pub const LOC_WINDOW: u64 = 1024;

// Where a row's strides stand, and a paired row's spans; its number begins it.
pub const ROW_STRIDES: usize = 8;

pub const ROW_SPANS: usize = 12;

pub fn row_width(kind: Kind) -> usize
    ensures { (result ≡ row_width kind) × (12 ≤ result) × (result ≤ 16) }
{
    match kind {
        Kind::Paired => 16,
        Kind::Single => 12,
    }
}

pub fn checkpoint_width(kind: Kind) -> usize
    ensures { (result ≡ checkpoint_width kind) × (8 ≤ result) × (result ≤ 16) }
{
    match kind {
        Kind::Paired => 16,
        Kind::Single => 8,
    }
}

pub fn loc_window(id: u64) -> u64
    ensures { result ≡ window_of id }
{
    id.saturating_sub(1) / LOC_WINDOW
}

pub fn loc_within(id: u64) -> usize
    ensures { (result ≡ within_window id) × (result < 1024) }
{
    (id.saturating_sub(1) % LOC_WINDOW) as usize
}

#[tactic(auto, unfolding(crate::specs::Slot::strides_from, crate::specs::Slot::strides_refusal, crate::specs::Answers::answer))]
pub fn strides_from_aligned_len(len: u64) -> Result<u64, Refusal>
    ensures { (answer_of result ≡ strides_from len) × IfOk result (λ v. v < 2 ^ 32) }
{
    if len == 0 {
        return Err(Refusal::BodyEmpty);
    }
    if len % IDX_STRIDE != 0 {
        return Err(Refusal::LengthNotPadded);
    }
    let strides = len / IDX_STRIDE;
    if 0x1_0000_0000 <= strides {
        return Err(Refusal::TooManyStrides);
    }
    Ok(strides)
}

fn below_byte(v: u32) -> u8
    ensures { result ≡ below 256 v }
{
    u8::try_from(v).unwrap_or(0)
}

// A record's values as the two bytes of its slot.
#[tactic(auto, unfolding(crate::specs::Slot::slot, crate::specs::Bytes::bytes))]
pub fn pack(kind: Kind, v: Value) -> [u8; 2]
    ensures { result ≡ slot kind v }
{
    match kind {
        Kind::Paired => [below_byte(v.strides), below_byte(v.spans)],
        Kind::Single => {
            let s = u16::try_from(v.strides).unwrap_or(0);
            [(s % 256) as u8, (s / 256) as u8]
        }
    }
}

#[tactic(auto, unfolding(crate::specs::Slot::needs_row))]
pub fn needs_row(kind: Kind, low: u8, high: u8) -> bool
    ensures { result ≡ needs_row kind (low ∷ high ∷ []) }
{
    match kind {
        Kind::Paired => low == 0 || high == 0,
        Kind::Single => low == 0 && high == 0,
    }
}

// What a slot says that needs no row.
#[tactic(auto, unfolding(crate::specs::Slot::inline))]
pub fn inline_value(kind: Kind, low: u8, high: u8) -> Value
    ensures { result ≡ inline kind (low ∷ high ∷ []) }
{
    match kind {
        Kind::Paired => Value {
            strides: low as u32,
            spans: high as u32,
        },
        Kind::Single => Value {
            strides: low as u32 + 256 * high as u32,
            spans: 0,
        },
    }
}

// How many of n records are kept with k whole checkpoints.
#[tactic(auto, unfolding(crate::specs::Slot::checkpoint_rule))]
pub fn checkpoint_prefix(n: u64, k: u64) -> u64
    ensures { (result ≡ checkpoint_rule n k) × (result ≤ n) }
{
    let need = n / LOC_WINDOW;
    if k < need {
        (k + 1) * LOC_WINDOW - 1
    } else {
        n
    }
}

fn byte_agrees(b: u8, v: u32) -> bool
    ensures { result ≡ agrees b v }
{
    b == 0 || b as u32 == v
}

fn byte_overflows(b: u8, v: u32) -> bool
    ensures { result ≡ overflows b v }
{
    b == 0 && 256 <= v
}

#[tactic(auto, unfolding(crate::specs::Cut::matches))]
pub fn ovf_row_matches_slot(kind: Kind, v: Value, low: u8, high: u8) -> bool
    ensures { result ≡ matches kind (low ∷ high ∷ []) v }
{
    let strides = v.strides;
    let spans = v.spans;
    match kind {
        Kind::Paired => {
            byte_agrees(low, strides)
                && byte_agrees(high, spans)
                && (byte_overflows(low, strides) || byte_overflows(high, spans))
        }
        Kind::Single => needs_row(kind, low, high) && 65536 <= strides,
    }
}

// The first byte's place of a record's slot, or the area's length where that lies past it.
fn slot_place(len: usize, id: u64) -> usize
    ensures { result ≡ min len (16 + 2 * (id - 1)) }
{
    let before = id.saturating_sub(1);
    before.saturating_mul(2).saturating_add(16).min(len as u64) as usize
}

// The two bytes of a record's slot.
#[tactic(auto, unfolding(crate::specs::Slot::slot_at))]
pub fn slot_at(slots: &[u8], id: u64) -> [u8; 2]
    ensures { result ≡ byte 0 (slot_at slots.now id) ∷ byte 1 (slot_at slots.now id) ∷ [] }
{
    let at = slot_place(slots.len(), id);
    let part = &slots[at..];
    [byte_at(part, 0), byte_at(part, 1)]
}

// What a row says; the row begins the slice.
#[tactic(auto, unfolding(crate::specs::Rows::row_value))]
pub fn row_value(kind: Kind, row: &[u8]) -> Value
    ensures { result ≡ row_value kind row.now }
{
    match kind {
        Kind::Paired => Value {
            strides: u32_at(row, ROW_STRIDES),
            spans: u32_at(row, ROW_SPANS),
        },
        Kind::Single => Value {
            strides: u32_at(row, ROW_STRIDES),
            spans: 0,
        },
    }
}

// The count that is kept of n where this row stands just past the published ones, the last of which is numbered `last`.
pub fn cut_for_ovf_row(kind: Kind, slots: &[u8], n: u64, last: u64, row: &[u8]) -> u64
    ensures { (result ≡ cut_for kind slots.now n last row.now) × (result ≤ n) }
{
    let number = u64_at(row, 0);
    if number <= last {
        return n;
    }
    if n < number {
        return n;
    }
    let slot = slot_at(slots, number);
    if ovf_row_matches_slot(kind, row_value(kind, row), slot[0], slot[1]) {
        return number - 1;
    }
    n
}

// How many whole rows an area publishes.
#[tactic(auto, unfolding(crate::specs::Kind::row_width))]
pub fn row_count(kind: Kind, rows: &[u8]) -> usize
    ensures { result ≡ fill (row_width kind) rows.now }
{
    match kind {
        Kind::Paired => published(rows, 16).count,
        Kind::Single => published(rows, 12).count,
    }
}

// How many rows have a number up to n, by halves.
pub fn rows_up_to(kind: Kind, rows: &[u8], n: u64) -> usize
    ensures { (result ≡ rows_up_to_by_halves n (row_list kind rows.now)) × (result ≤ fill (row_width kind) rows.now) }
{
    let width = row_width(kind);
    let mut lo: usize = 0;
    let mut hi = row_count(kind, rows);
    // the library's search answers nothing of rows in no order, and a definite answer is promised there too (rows_up_to_by_halves)
    while lo < hi {
        let mid = lo + (hi - lo) / 2;
        if u64_at(rows, FILE_HEADER_LEN + width * mid) <= n {
            lo = mid + 1;
        } else {
            hi = mid;
        }
    }
    lo
}
