// One record of the audit's pass: its row, its value, the ends after it, and its checkpoint.
// What makes the index unsound gives nothing.
ghost use Rattle.std.specs.Prelude.{◌≡◌, [], ◌∷◌, ◌^◌, ◌<◌};
ghost use Rattle.loc_leaf.specs.Slot.{slot_at};
ghost use Rattle.loc_calls.specs.Audit.{byte_fits, row_fits, row_wanted};
ghost use Rattle.loc_audit.specs.Pass.{own_value, slot_says, end_after, added, checkpoint_is, checkpoint_holds, ends_after};

use crate::Ends;
use loc_calls::Areas;
use loc_leaf::delta_loc::{LOC_WINDOW, inline_value, needs_row, slot_at};
use loc_leaf::file::{FILE_HEADER_LEN, u64_at};
use loc_leaf::{Kind, Value};
use loc_rows::Row;

// What the row at the reader's place says, if it is the row of record id.
#[tactic(auto, unfolding(crate::specs::Pass::own_value))]
pub fn own_value(row: Option<Row>, id: u64) -> Option<Value>
    ensures { result ≡ own_value row id }
{
    let row = row?;
    (row.number == id).then_some(Value {
        strides: row.strides,
        spans: row.spans,
    })
}

// Whether a slot byte fits its value in the row: 0 with 256 or more, or the value itself.
fn byte_fits(b: u8, v: u32) -> bool
    ensures { result ≡ byte_fits b v }
{
    if b == 0 { 256 <= v } else { u32::from(b) == v }
}

// Whether a slot that needs a row fits what the row says.
#[tactic(auto, unfolding(loc_calls::specs::Audit::row_fits))]
fn row_fits(kind: Kind, low: u8, high: u8, v: Value) -> bool
    ensures { result ≡ row_fits kind (low ∷ high ∷ []) v }
{
    match kind {
        Kind::Paired => byte_fits(low, v.strides) && byte_fits(high, v.spans),
        Kind::Single => 65536 <= v.strides,
    }
}

// Whether a slot needs a row, and this one.
#[tactic(auto, unfolding(loc_calls::specs::Audit::row_wanted))]
fn row_wanted(kind: Kind, low: u8, high: u8, v: Value) -> bool
    ensures { result ≡ row_wanted kind (low ∷ high ∷ []) v }
{
    needs_row(kind, low, high) && row_fits(kind, low, high, v)
}

// What slot and row say of record id, where this is what its row says: nothing where a row is not wanted, or lacking.
fn slot_says(kind: Kind, slots: &[u8], id: u64, own: Option<Value>) -> Option<Value>
    ensures { result ≡ slot_says kind (slot_at slots.now id) own }
{
    let [low, high] = slot_at(slots, id);
    match own {
        Some(v) => row_wanted(kind, low, high, v).then_some(v),
        None => (!needs_row(kind, low, high)).then_some(inline_value(kind, low, high)),
    }
}

// An end after so many units of 8 bytes; a sum that would pass 2^64 is not made.
#[tactic(auto, unfolding(crate::specs::Pass::end_after))]
fn end_after(end: u64, units: u32) -> Option<u64>
    ensures { result ≡ end_after end units }
{
    end.checked_add(8 * u64::from(units))
}

impl Ends {
    // The ends after a record of this value.
    #[tactic(auto, unfolding(crate::specs::Pass::end_after, crate::specs::Pass::added))]
    fn after(self, v: Value) -> Option<Ends>
        ensures { result ≡ added self v }
    {
        Some(Ends {
            body: end_after(self.body, v.strides)?,
            span: end_after(self.span, v.spans)?,
        })
    }
}

// Whether checkpoint w, counted from 1, says these ends.
fn checkpoint_is(kind: Kind, checkpoints: &[u8], w: u64, e: Ends) -> bool
    requires { (0 < w) × (w < 2 ^ 54) }
    ensures { result ≡ checkpoint_is kind checkpoints.now w e }
{
    let before = (w - 1) as usize;
    match kind {
        Kind::Paired => {
            let at = FILE_HEADER_LEN + 16 * before;
            u64_at(checkpoints, at) == e.body && u64_at(checkpoints, at + 8) == e.span
        }
        Kind::Single => u64_at(checkpoints, FILE_HEADER_LEN + 8 * before) == e.body,
    }
}

// Whether the checkpoint after record id, if one stands there, says these ends.
#[tactic(auto, unfolding(crate::specs::Pass::checkpoint_holds))]
fn checkpoint_holds(kind: Kind, checkpoints: &[u8], id: u64, e: Ends) -> bool
    requires { 0 < id }
    ensures { result ≡ checkpoint_holds kind checkpoints.now id e }
{
    id % LOC_WINDOW != 0 || checkpoint_is(kind, checkpoints, id / LOC_WINDOW, e)
}

// The ends after record id, whose checkpoint says them if it has one.
#[tactic(auto, unfolding(crate::specs::Pass::ends_after, crate::specs::Pass::tested, crate::specs::Pass::record_step, crate::specs::Pass::valued))]
pub fn ends_after(kind: Kind, a: Areas, id: u64, own: Option<Value>, e: Ends) -> Option<Ends>
    requires { 0 < id }
    ensures { result ≡ ends_after kind a.entry.slots.now a.entry.checkpoints.now id own e }
{
    let v = slot_says(kind, a.slots, id, own)?;
    let after = e.after(v)?;
    checkpoint_holds(kind, a.checkpoints, id, after).then_some(after)
}
