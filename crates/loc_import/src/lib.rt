// A listing appended to a paired index: its text is read once, and what it says is appended as one batch.
// An inner crate; the call itself asks nothing of its caller.
#![tactic(auto)]

ghost use Rattle.loc_leaf.specs.Answers.{answer_of};
ghost use Rattle.loc_calls.specs.Lent.{held, SameLenders};
ghost use Rattle.loc_calls.specs.Promises.{Stored};
ghost use Rattle.loc_parse.specs.Import.{append_listing};

use loc_append::run::append_settled;
use loc_calls::AreasMut;
use loc_leaf::Kind;
use loc_leaf::refusal::Refusal;
use loc_parse::lists::Lists;
use loc_store::check::check_areas;

// 1, 6; 18 to 20, line by line; then as append. The value is the count that the areas then hold.
pub fn append_listing_run(areas: &mut AreasMut, text: &[u8], places: u64) -> Result<u64, Refusal>
    ensures { Stored (append_listing places text.now (held areas.old)) (answer_of result) (held areas.new) × SameLenders areas.old areas.new }
{
    let found = check_areas(Kind::Paired, areas.shared())?;
    let mut lists = Lists::new();
    lists.parse(found.count, text)?;
    append_settled(Kind::Paired, areas, found, lists.batch(), places)
}
