// Opening: the checkpoint rule, then the cut rule, with the stores of its first places.
// Of an inner crate, as the public calls of both kinds use it.
ghost use Rattle.loc_leaf.specs.Answers.{answer_of};
ghost use Rattle.loc_calls.specs.Table.{opening};
ghost use Rattle.loc_calls.specs.Calls.{call};
ghost use Rattle.loc_calls.specs.Promises.{Stored};
ghost use Rattle.loc_calls.specs.Lent.{held, SameLenders};

use crate::check::{open_refusal, published_areas, too_small};
use crate::plan::rules;
use crate::store::store_rules;
use loc_calls::AreasMut;
use loc_leaf::Kind;
use loc_leaf::file::published;
use loc_leaf::refusal::Refusal;

// 1; 2 to 5; then the first `places` of the six lengths. The value is the count that the areas then hold.
pub fn open_run(kind: Kind, areas: &mut AreasMut, places: u64) -> Result<u64, Refusal>
    ensures { Stored (call kind places opening (held areas.old)) (answer_of result) (held areas.new) × SameLenders areas.old areas.new }
{
    let a = areas.shared();
    if too_small(a) {
        return Err(Refusal::AreaTooSmall);
    }
    let p = published_areas(kind, a);
    open_refusal(kind, a.rows, p)?;
    let plan = rules(kind, a, p);
    store_rules(areas, p.ends(), plan, places);
    Ok(published(areas.shared().slots, 2).count as u64)
}
