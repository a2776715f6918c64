// The bytes that a batch stages, written record by record past the published ends of the areas.
// Each writer answers the place past what it wrote.
ghost use Rattle.std.specs.Prelude.{◌≡◌, ℕ, ◌+◌, ◌/◌, ◌^◌, ◌≤◌, ◌<◌, length};
ghost use mathlib.Core.List.{flatten};
ghost use Rattle.loc_leaf.specs.Bytes.{store};
ghost use Rattle.loc_leaf.specs.Kind.{row_width, checkpoint_width};
ghost use Rattle.loc_leaf.specs.Rows.{row};
ghost use Rattle.loc_calls.specs.Lent.{held, lists, SameLenders};
ghost use Rattle.loc_calls.specs.Areas.{areas, each};
ghost use Rattle.loc_calls.specs.Stores.{checkpoint, slot_of, row_of, checkpoint_of, write, step, staged};
ghost use Rattle.loc_batch.specs.Lists.{as_entry, batched, Held, Sound, Written, Room, Staged, left};

use crate::Record;
use crate::entry::{is_stored_as_zero, record_at};
use loc_calls::{AreasMut, Batch};
use loc_leaf::delta_loc::{LOC_WINDOW, ROW_SPANS, ROW_STRIDES, checkpoint_width, pack, row_width};
use loc_leaf::file::logical_len;
use loc_leaf::{Kind, Value};

#[tactic(auto, using(crate::proofs::StageLaws::part_put))]
fn put(out: &mut [u8], to: usize, bytes: &[u8])
    requires { to + length bytes.now ≤ length out.old }
    ensures { out.new ≡ store to bytes.now out.old }
{
    out[to..to + bytes.len()].copy_from_slice(bytes);
}

fn write_slot(out: &mut [u8], to: usize, kind: Kind, e: Record) -> usize
    requires { (to + 2 ≤ length out.old) × (e.len / 8 < 2 ^ 32) }
    ensures { (id : ℕ) → Written out.old to (slot_of kind id (as_entry e)) out.new result }
{
    put(out, to, &pack(kind, e.value()));
    to + 2
}

#[tactic(auto, using(crate::proofs::StageLaws::row_paired, crate::proofs::StageLaws::row_single))]
fn put_row(out: &mut [u8], to: usize, kind: Kind, id: u64, v: Value)
    requires { to + row_width kind ≤ length out.old }
    ensures { out.new ≡ store to (row kind id v) out.old }
{
    put(out, to, &id.to_le_bytes());
    put(out, to + ROW_STRIDES, &v.strides.to_le_bytes());
    if let Kind::Paired = kind {
        put(out, to + ROW_SPANS, &v.spans.to_le_bytes());
    }
}

fn write_row(out: &mut [u8], to: usize, kind: Kind, id: u64, e: Record) -> usize
    requires { (to + length (flatten (row_of kind id (as_entry e))) ≤ length out.old) × Sound kind (as_entry e) }
    ensures { Written out.old to (row_of kind id (as_entry e)) out.new result }
{
    let v = e.value();
    if !is_stored_as_zero(kind, v) {
        return to;
    }
    put_row(out, to, kind, id, v);
    to + row_width(kind)
}

#[tactic(auto, using(crate::proofs::StageLaws::checkpoint_paired, crate::proofs::StageLaws::checkpoint_single))]
fn put_checkpoint(out: &mut [u8], to: usize, kind: Kind, e: Record)
    requires { to + checkpoint_width kind ≤ length out.old }
    ensures { out.new ≡ store to (checkpoint kind (as_entry e)) out.old }
{
    put(out, to, &e.body_after().to_le_bytes());
    if let Kind::Paired = kind {
        put(out, to + 8, &e.span_after().to_le_bytes());
    }
}

fn write_checkpoint(out: &mut [u8], to: usize, kind: Kind, id: u64, e: Record) -> usize
    requires { to + length (flatten (checkpoint_of kind id (as_entry e))) ≤ length out.old }
    ensures { Written out.old to (checkpoint_of kind id (as_entry e)) out.new result }
{
    if id % LOC_WINDOW != 0 {
        return to;
    }
    put_checkpoint(out, to, kind, e);
    to + checkpoint_width(kind)
}

// The loop over the records. It is put in place at each call, where the kind is known, so that no record asks which kind it is of.
#[inline(always)]
fn write_records(
    kind: Kind,
    slots: &mut [u8],
    rows: &mut [u8],
    checkpoints: &mut [u8],
    b: Batch,
    base: u64,
)
    requires room { Room kind base (batched kind (lists b)) (each length (areas slots.old rows.old checkpoints.old)) }
    requires holds { Held kind (lists b) (length b.lens.now) }
    ensures { Staged kind base (batched kind (lists b.entry)) (areas slots.old rows.old checkpoints.old) (areas slots.new rows.new checkpoints.new) }
{
    let mut slot_to = 0;
    let mut row_to = 0;
    let mut checkpoint_to = 0;
    for i in 0..b.lens.len() {
        let e = record_at(kind, b, i);
        let id = base + 1 + i as u64;
        slot_to = write_slot(slots, slot_to, kind, e);
        row_to = write_row(rows, row_to, kind, id, e);
        checkpoint_to = write_checkpoint(checkpoints, checkpoint_to, kind, id, e);
    }
}

// All records, into the parts of the areas that begin at the published ends; `base` records stand before them.
// Three slices: the proof of a struct that lends parts of another's slices does not close (the check covers no such loan).
pub fn write_batch(
    kind: Kind,
    slots: &mut [u8],
    rows: &mut [u8],
    checkpoints: &mut [u8],
    b: Batch,
    base: u64,
)
    requires room { Room kind base (batched kind (lists b)) (each length (areas slots.old rows.old checkpoints.old)) }
    requires holds { Held kind (lists b) (length b.lens.now) }
    ensures { Staged kind base (batched kind (lists b.entry)) (areas slots.old rows.old checkpoints.old) (areas slots.new rows.new checkpoints.new) }
{
    match kind {
        Kind::Paired => write_records(Kind::Paired, slots, rows, checkpoints, b, base),
        Kind::Single => write_records(Kind::Single, slots, rows, checkpoints, b, base),
    }
}

// The same past the published ends: each part is lent to its writer.
pub fn write_bytes(kind: Kind, areas: &mut AreasMut, b: Batch, base: u64)
    requires room { Room kind base (batched kind (lists b)) (each left (held areas.old)) }
    requires holds { Held kind (lists b) (length b.lens.now) }
    ensures { (held areas.new ≡ step (write (each flatten (staged kind base (batched kind (lists b.entry))))) (held areas.old))
        × SameLenders areas.old areas.new }
{
    let a = areas.shared();
    let slot_end = logical_len(a.slots);
    let row_end = logical_len(a.rows);
    let checkpoint_end = logical_len(a.checkpoints);
    write_batch(
        kind,
        &mut areas.slots[slot_end..],
        &mut areas.rows[row_end..],
        &mut areas.checkpoints[checkpoint_end..],
        b,
        base,
    );
}
