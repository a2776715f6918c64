// The stores of a truncation and of an opening, as far as the first places reach.
// Of an inner crate; nothing is decided here but whether a length differs from the old one.
ghost use Rattle.std.specs.Prelude.{◌≡◌};
ghost use Rattle.loc_calls.specs.Stores.{run};
ghost use Rattle.loc_calls.specs.Lent.{held, SameLenders};
ghost use Rattle.loc_store.specs.Plans.{fitted, length_places, rules_places};

use crate::{Lengths, Rules};
use loc_calls::AreasMut;
use loc_leaf::file::store_len;

// Stores a length that differs from the old one.
#[tactic(auto, unfolding(crate::specs::Plans::fitted))]
pub fn fit_len(area: &mut [u8], old: u64, new: u64)
    ensures { area.new ≡ fitted old new area.old }
{
    if new != old {
        store_len(area, new);
    }
}

// The stores of a truncation's first places: checkpoints, rows, slots.
pub fn store_run(areas: &mut AreasMut, old: Lengths, new: Lengths, places: u64)
    ensures { (held areas.new ≡ run places (length_places old new) (held areas.old)) × SameLenders areas.old areas.new }
{
    if 0 < places {
        fit_len(areas.checkpoints, old.checkpoints, new.checkpoints);
    }
    if 1 < places {
        fit_len(areas.rows, old.rows, new.rows);
    }
    if 2 < places {
        fit_len(areas.slots, old.slots, new.slots);
    }
}

// The stores of an opening's first places: the checkpoint rule's, then the cut rule's.
pub fn store_rules(areas: &mut AreasMut, old: Lengths, rules: Rules, places: u64)
    ensures { (held areas.new ≡ run places (rules_places old rules) (held areas.old)) × SameLenders areas.old areas.new }
{
    store_run(areas, old, rules.checkpoint, places);
    store_run(areas, rules.checkpoint, rules.cut, places.saturating_sub(3));
}
