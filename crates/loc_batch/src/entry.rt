// One record of a batch: its numbers, its value, its refusal.
// Lists are read by place, as far as they all reach.
ghost use Rattle.std.specs.Prelude.{◌≡◌, [], ◌∷◌, ◌+◌, ◌/◌, ◌^◌, ◌<◌};
ghost use Rattle.loc_leaf.specs.Answers.{refusal_of};
ghost use Rattle.loc_leaf.specs.Slot.{stored_as_zero};
ghost use Rattle.loc_calls.specs.Lent.{lists};
ghost use Rattle.loc_calls.specs.Table.{value_of, body_after, span_after, spanless, breaks, entry_refusal};
ghost use Rattle.loc_batch.specs.Lists.{entry_at, as_entry, Held};

use crate::Record;
use loc_calls::Batch;
use loc_leaf::delta_loc::strides_from_aligned_len;
use loc_leaf::refusal::Refusal;
use loc_leaf::{Kind, Value};

// Each kind reads its own lists: in this form the compiler makes the faster loops.
#[tactic(auto, unfolding(crate::specs::Lists::entry_at, crate::specs::Lists::as_entry))]
pub fn record_at(kind: Kind, b: Batch, i: usize) -> Record
    requires { Held kind (lists b) (i + 1) }
    ensures { as_entry result ≡ entry_at kind (lists b.entry) i }
{
    match kind {
        Kind::Paired => Record {
            start: b.starts[i],
            len: b.lens[i],
            span_start: b.span_starts[i],
            spans: b.span_counts[i],
        },
        Kind::Single => Record {
            start: b.starts[i],
            len: b.lens[i],
            span_start: 16,
            spans: 0,
        },
    }
}

// Whether a value does not fit its place in the slot, so that the record needs a row.
#[tactic(auto, unfolding(loc_leaf::specs::Slot::stored_as_zero))]
pub fn is_stored_as_zero(kind: Kind, v: Value) -> bool
    ensures { result ≡ stored_as_zero kind v }
{
    match kind {
        Kind::Paired => 256 <= v.strides || 256 <= v.spans,
        Kind::Single => 65536 <= v.strides,
    }
}

impl Record {
    #[tactic(auto, unfolding(loc_calls::specs::Table::body_after, crate::specs::Lists::as_entry))]
    pub fn body_after(self) -> u64
        ensures { result ≡ body_after (as_entry self) }
    {
        self.start.saturating_add(self.len)
    }

    #[tactic(auto, unfolding(loc_calls::specs::Table::span_after, crate::specs::Lists::as_entry))]
    pub fn span_after(self) -> u64
        ensures { result ≡ span_after (as_entry self) }
    {
        self.span_start.saturating_add(8 * u64::from(self.spans))
    }

    // What slot and row say of a record whose strides fit.
    #[tactic(auto, unfolding(loc_calls::specs::Table::value_of, crate::specs::Lists::as_entry))]
    pub fn value(self) -> Value
        requires { self.len / 8 < 2 ^ 32 }
        ensures { result ≡ value_of (as_entry self) }
    {
        Value {
            strides: (self.len / 8) as u32,
            spans: self.spans,
        }
    }

    #[tactic(auto, unfolding(loc_calls::specs::Table::spanless, crate::specs::Lists::as_entry))]
    fn is_spanless(self, kind: Kind) -> bool
        ensures { result ≡ spanless kind (as_entry self) }
    {
        match kind {
            Kind::Paired => self.spans == 0,
            Kind::Single => false,
        }
    }

    // 8, 22, 9 or 10, of a record by itself.
    #[tactic(auto, unfolding(loc_calls::specs::Table::entry_refusal, loc_calls::specs::Table::breaks, crate::specs::Lists::as_entry, loc_leaf::specs::Slot::strides_from, loc_leaf::specs::Answers::answer))]
    pub fn check_alone(self, kind: Kind) -> Result<(), Refusal>
        ensures { refusal_of result ≡ entry_refusal kind (as_entry self) [] }
    {
        if self.is_spanless(kind) {
            return Err(Refusal::NoSpans);
        }
        strides_from_aligned_len(self.len)?;
        Ok(())
    }

    // 11 or 12 where the next record does not begin at this one's end.
    #[tactic(auto, unfolding(loc_calls::specs::Table::breaks, crate::specs::Lists::as_entry))]
    fn check_next(self, next: Record) -> Result<(), Refusal>
        ensures { refusal_of result ≡ breaks (as_entry self) (as_entry next ∷ []) }
    {
        if next.start != self.body_after() {
            return Err(Refusal::BodyNotChained);
        }
        if next.span_start != self.span_after() {
            return Err(Refusal::SpansNotChained);
        }
        Ok(())
    }

    // 8, 22, 9 to 12, of a record and the one after it.
    #[tactic(auto, using(crate::proofs::EntryLaws::own_first), unfolding(loc_calls::specs::Table::entry_refusal, loc_calls::specs::Table::breaks))]
    pub fn check_before(self, kind: Kind, next: Record) -> Result<(), Refusal>
        ensures { refusal_of result ≡ entry_refusal kind (as_entry self) (as_entry next ∷ []) }
    {
        self.check_alone(kind)?;
        self.check_next(next)
    }
}
