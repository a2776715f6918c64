// A batch's refusals 7 to 12 and 22, and how many rows it stages.
// One pass over the records decides both.
ghost use Rattle.std.specs.Prelude.{◌≡◌, not, ◌≤◌, ◌<◌, length};
ghost use Rattle.loc_calls.specs.Lent.{lists};
ghost use Rattle.loc_calls.specs.Table.{uneven};
ghost use Rattle.loc_batch.specs.Lists.{as_entry, batched, rows_of, Held, Sound, Tested};

use crate::Record;
use crate::entry::{is_stored_as_zero, record_at};
use loc_calls::Batch;
use loc_leaf::Kind;
use loc_leaf::refusal::Refusal;

// Whether the lists of a batch have one length.
#[tactic(auto, unfolding(loc_calls::specs::Table::uneven))]
pub fn lists_agree(kind: Kind, b: Batch) -> bool
    ensures { result ≡ not (uneven kind (lists b.entry)) }
{
    let n = b.lens.len();
    match kind {
        Kind::Paired => b.starts.len() == n && b.span_starts.len() == n && b.span_counts.len() == n,
        Kind::Single => b.starts.len() == n,
    }
}

// 1 for a record that stages a row, 0 for one that does not.
#[tactic(auto, using(crate::proofs::BatchLaws::rows_is), unfolding(crate::specs::Lists::as_entry))]
pub fn rows_of(kind: Kind, e: Record) -> usize
    requires { Sound kind (as_entry e) }
    ensures { (result ≡ rows_of kind (as_entry e)) × (result ≤ 1) }
{
    usize::from(is_stored_as_zero(kind, e.value()))
}

// The first refusal of a record, or how many rows the records stage.
pub fn check_batch(kind: Kind, b: Batch) -> Result<usize, Refusal>
    requires some { 0 < length b.lens.now }
    requires holds { Held kind (lists b) (length b.lens.now) }
    ensures { Tested kind (batched kind (lists b.entry)) result }
{
    let mut e = record_at(kind, b, 0);
    let mut rows = 0;
    for i in 1..b.lens.len() {
        let next = record_at(kind, b, i);
        e.check_before(kind, next)?;
        rows += rows_of(kind, e);
        e = next;
    }
    e.check_alone(kind)?;
    Ok(rows + rows_of(kind, e))
}
