// Truncation to the first records, with the stores of its first places.
// Of an inner crate, as the public calls of both kinds use it.
ghost use Rattle.loc_leaf.specs.Answers.{answer_of};
ghost use Rattle.loc_calls.specs.Table.{truncate};
ghost use Rattle.loc_calls.specs.Calls.{call};
ghost use Rattle.loc_calls.specs.Promises.{Stored};
ghost use Rattle.loc_calls.specs.Lent.{held, SameLenders};

use crate::check::check_areas;
use crate::plan::lengths;
use crate::store::store_run;
use loc_calls::AreasMut;
use loc_leaf::Kind;
use loc_leaf::file::published;
use loc_leaf::refusal::Refusal;

// 1, 6, 14; then the first `places` of the three lengths. The value is the count that the areas then hold.
pub fn truncate_run(
    kind: Kind,
    areas: &mut AreasMut,
    count: u64,
    places: u64,
) -> Result<u64, Refusal>
    ensures { Stored (call kind places (truncate count) (held areas.old)) (answer_of result) (held areas.new) × SameLenders areas.old areas.new }
{
    let a = areas.shared();
    let found = check_areas(kind, a)?;
    if found.count < count {
        return Err(Refusal::PastCount);
    }
    let plan = lengths(kind, a.rows, count);
    store_run(areas, found.ends, plan, places);
    Ok(published(areas.shared().slots, 2).count as u64)
}
