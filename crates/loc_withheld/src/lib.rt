// How many records are durable where the row area has reached the medium up to a length, for both kinds.
// An inner crate: its call asks nothing, but the function below it has a `requires`.
#![tactic(auto)]

ghost use Rattle.std.specs.Prelude.{◌≡◌, ◌≤◌, length};
ghost use Rattle.loc_leaf.specs.Answers.{answer_of};
ghost use Rattle.loc_calls.specs.Lent.{seen};
ghost use Rattle.loc_calls.specs.Withheld.{limited, withheld};
ghost use Rattle.loc_store.specs.Plans.{cut_past};

use loc_calls::Areas;
use loc_leaf::Kind;
use loc_leaf::delta_loc::row_width;
use loc_leaf::file::FILE_HEADER_LEN;
use loc_leaf::refusal::Refusal;
use loc_store::Checked;
use loc_store::check::check_areas;
use loc_store::plan::{cut_count, number_before};

// Of the records that were found, those before the record of the row at the durable length.
#[tactic(auto, unfolding(loc_calls::specs::Withheld::limited, loc_calls::specs::Withheld::on_edge))]
fn limit(kind: Kind, a: Areas, found: Checked, durable: u64) -> u64
    requires { found.ends.rows ≤ length a.rows.now }
    ensures { result ≡ limited kind durable found.ends.rows found.count
        (cut_past kind a.entry.slots.now a.entry.rows.now found.count durable) }
{
    if found.ends.rows <= durable {
        return found.count;
    }
    let header = FILE_HEADER_LEN as u64;
    if durable < header || (durable - header) % row_width(kind) as u64 != 0 {
        return 0;
    }
    let at = durable as usize;
    let last = number_before(kind, a.rows, at);
    cut_count(kind, a.slots, a.rows, found.count, at, last)
}

// 1, then 6.
pub fn withheld_ovf_limit(kind: Kind, a: Areas, durable: u64) -> Result<u64, Refusal>
    ensures { answer_of result ≡ (withheld kind durable (seen a.entry)).answer }
{
    let found = check_areas(kind, a)?;
    Ok(limit(kind, a, found, durable))
}
