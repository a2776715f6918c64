// Code and book in one statement: a history run by the public calls, whose replies are promised to be the book's.
// The history: a creation, an append, a second append torn at some place, an opening, a reading.
#![tactic(auto)]

ghost use Rattle.loc_calls.specs.Lent.{held, lists, SameLenders};
ghost use Rattle.loc_recovery.specs.Recovery.{history, Recovered};

use loc_calls::{AreasMut, Batch};
use loc_leaf::Kind;
use loc_leaf::refusal::Refusal;

// What the calls that finished replied; the reading's words are in the answer buffer.
#[derive(Clone, Copy)]
pub struct Replies {
    pub appended: Result<u64, Refusal>,
    pub opened: Result<u64, Refusal>,
    pub read: Result<u64, Refusal>,
}

// Records, a power cut while more are appended, and what is read after the opening. `places` is how many places of the second append were stored.
pub fn recover(
    kind: Kind,
    areas: &mut AreasMut,
    batch: Batch,
    more: Batch,
    places: u64,
    wanted: &[u64],
    answers: &mut [u64],
) -> Replies
    ensures { Recovered kind (held areas.old) (history (lists batch.entry) (lists more.entry) places wanted.now answers.old)
        result answers.new (held areas.new) × SameLenders areas.old areas.new }
{
    let _ = loc_index::create(areas);
    let appended = loc_index::append(kind, areas, batch);
    let _ = loc_index::append_run(kind, areas, more, places);
    let opened = loc_index::open(kind, areas);
    let read = loc_index::range_batch(kind, areas.shared(), wanted, answers);
    Replies {
        appended,
        opened,
        read,
    }
}
