// Append: its refusals, then the stores of its first places.
// Of an inner crate, as the public calls of both kinds use it.
ghost use Rattle.std.specs.Prelude.{Ok};
ghost use Rattle.loc_leaf.specs.Answers.{answer_of};
ghost use Rattle.loc_calls.specs.Lent.{held, lists, SameLenders};
ghost use Rattle.loc_calls.specs.Table.{append};
ghost use Rattle.loc_calls.specs.Calls.{call};
ghost use Rattle.loc_calls.specs.Promises.{Stored};
ghost use Rattle.loc_store.specs.Areas.{Checks};

use crate::append::append_stores;
use crate::plan::plan_append;
use loc_calls::{AreasMut, Batch};
use loc_leaf::Kind;
use loc_leaf::file::published;
use loc_leaf::refusal::Refusal;
use loc_store::Checked;
use loc_store::check::check_areas;

// 7 to 13, 17 and 22 to 24, of areas that neither 1 nor 6 refuses and of which this was found; then the first `places` of the four. The value is the count that the areas then hold.
pub fn append_settled(
    kind: Kind,
    areas: &mut AreasMut,
    found: Checked,
    b: Batch,
    places: u64,
) -> Result<u64, Refusal>
    requires { Checks kind (held areas.old) (Ok found) }
    ensures { Stored (call kind places (append (lists b.entry)) (held areas.old)) (answer_of result) (held areas.new) × SameLenders areas.old areas.new }
{
    let stage = plan_append(kind, areas.shared(), found, b)?;
    append_stores(kind, areas, b, stage, places);
    Ok(published(areas.shared().slots, 2).count as u64)
}

// 1, 6; 7 to 13, 17 and 22 to 24; then the first `places` of the four. The value is the count that the areas then hold.
pub fn append_run(kind: Kind, areas: &mut AreasMut, b: Batch, places: u64) -> Result<u64, Refusal>
    ensures { Stored (call kind places (append (lists b.entry)) (held areas.old)) (answer_of result) (held areas.new) × SameLenders areas.old areas.new }
{
    let found = check_areas(kind, areas.shared())?;
    append_settled(kind, areas, found, b, places)
}
