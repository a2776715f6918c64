// Creation: the length of an empty area, three times.
// Of an inner crate, as the public calls of both kinds use it.
ghost use Rattle.loc_leaf.specs.Answers.{answer_of};
ghost use Rattle.loc_calls.specs.Calls.{create};
ghost use Rattle.loc_calls.specs.Promises.{Stored};
ghost use Rattle.loc_calls.specs.Lent.{held, SameLenders};

use crate::check::too_small;
use loc_calls::AreasMut;
use loc_leaf::file::store_len;
use loc_leaf::refusal::Refusal;

// 1; then lengths of slots, rows, checkpoints.
pub fn create_areas(areas: &mut AreasMut) -> Result<u64, Refusal>
    ensures { Stored (create (held areas.old)) (answer_of result) (held areas.new) × SameLenders areas.old areas.new }
{
    if too_small(areas.shared()) {
        return Err(Refusal::AreaTooSmall);
    }
    store_len(areas.slots, 16);
    store_len(areas.rows, 16);
    store_len(areas.checkpoints, 16);
    Ok(0)
}
