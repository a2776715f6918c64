// The refusals 1 to 5, and the check of number 6.
// Of an inner crate; nothing is stored here.
ghost use Rattle.std.specs.Prelude.{◌≡◌};
ghost use Rattle.loc_leaf.specs.Answers.{refusal_of};
ghost use Rattle.loc_leaf.specs.Bytes.{Bytes};
ghost use Rattle.loc_calls.specs.Lent.{seen};
ghost use Rattle.loc_calls.specs.Areas.{areas};
ghost use Rattle.loc_calls.specs.Stores.{open_refusal, settled};
ghost use Rattle.loc_calls.specs.Calls.{too_small};
ghost use Rattle.loc_store.specs.Areas.{HoldHeaders, Publishes, Checks};

use crate::plan::{cut_count, number_before};
use crate::{Checked, Published, Refused};
use loc_calls::Areas;
use loc_leaf::Kind;
use loc_leaf::delta_loc::{LOC_WINDOW, checkpoint_width, row_width};
use loc_leaf::file::{FILE_HEADER_LEN, published};
use loc_leaf::refusal::Refusal;
use loc_rows::rows_ascend;

// 1: an area under 16 bytes.
#[tactic(auto, unfolding(loc_calls::specs::Calls::too_small))]
pub fn too_small(a: Areas) -> bool
    ensures { result ≡ too_small (seen a.entry) }
{
    a.slots.len() < FILE_HEADER_LEN
        || a.rows.len() < FILE_HEADER_LEN
        || a.checkpoints.len() < FILE_HEADER_LEN
}

pub fn published_areas(kind: Kind, a: Areas) -> Published
    ensures { Publishes kind (seen a.entry) result }
{
    Published {
        slots: published(a.slots, 2),
        rows: published(a.rows, row_width(kind)),
        checkpoints: published(a.checkpoints, checkpoint_width(kind)),
    }
}

// 2 to 5 in order. A function of its own in the archive too: put in its place in an opening, its loop over the rows
// had too few registers, and took 10 instructions a row in place of 7.
#[inline(never)]
#[tactic(auto, unfolding(loc_calls::specs::Stores::open_refusal, loc_calls::specs::Stores::ragged))]
pub fn open_refusal(kind: Kind, rows: &[u8], p: Published) -> Result<(), Refusal>
    ensures { (s c : Bytes) → Publishes kind (areas s rows.now c) p → refusal_of result ≡ open_refusal kind (areas s rows.now c) }
{
    if p.slots.left != 0 {
        return Err(Refusal::SlotsOdd);
    }
    if p.checkpoints.left != 0 {
        return Err(Refusal::CheckpointsNotWhole);
    }
    if p.rows.left != 0 {
        return Err(Refusal::RowsNotWhole);
    }
    if rows_ascend(kind, rows) {
        Ok(())
    } else {
        Err(Refusal::RowsNotAscending)
    }
}

// Whether number 6 is not given: opening would refuse nothing, and change no length, since there is a checkpoint for each whole window,
// no row is numbered above the count, and the cut rule keeps all records.
fn settled(kind: Kind, a: Areas, p: Published) -> bool
    requires { HoldHeaders (seen a) × Publishes kind (seen a) p }
    ensures { result ≡ settled kind (seen a.entry) }
{
    if open_refusal(kind, a.rows, p).is_err() {
        return false;
    }
    let count = p.slots.count as u64;
    if p.checkpoints.count as u64 != count / LOC_WINDOW {
        return false;
    }
    let end = p.rows.end;
    let last = number_before(kind, a.rows, end);
    last <= count && cut_count(kind, a.slots, a.rows, count, end, last) == count
}

// 1, then 6: what every call but creation and opening begins with. What the areas publish is found of refused ones, too.
pub fn check_areas(kind: Kind, a: Areas) -> Result<Checked, Refused>
    ensures { Checks kind (seen a.entry) result }
{
    let p = published_areas(kind, a);
    let found = Checked {
        count: p.slots.count as u64,
        row_count: p.rows.count,
        ends: p.ends(),
    };
    if too_small(a) {
        let refusal = Refusal::AreaTooSmall;
        return Err(Refused { found, refusal });
    }
    if settled(kind, a, p) {
        Ok(found)
    } else {
        let refusal = Refusal::NotOpened;
        Err(Refused { found, refusal })
    }
}
