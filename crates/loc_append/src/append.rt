// The four places of an append: the bytes past the published ends, then the lengths of slots, rows and checkpoints.
// A run makes the stores of the first places.
ghost use Rattle.std.specs.Prelude.{◌≡◌, length};
ghost use Rattle.loc_calls.specs.Lent.{held, lists, SameLenders};
ghost use Rattle.loc_calls.specs.Stores.{run};
ghost use Rattle.loc_batch.specs.Lists.{batched, Held};
ghost use Rattle.loc_append.specs.Plans.{stage_places, RoomPast};

use crate::Stage;
use loc_batch::staging::write_bytes;
use loc_calls::{AreasMut, Batch};
use loc_leaf::Kind;
use loc_store::store::fit_len;

// The stores of the first s places.
pub fn append_stores(kind: Kind, areas: &mut AreasMut, b: Batch, t: Stage, s: u64)
    requires room_past { RoomPast kind t.base (batched kind (lists b)) (held areas.old) }
    requires holds { Held kind (lists b) (length b.lens.now) }
    ensures { (held areas.new ≡ run s (stage_places kind (batched kind (lists b.entry)) t) (held areas.old))
        × SameLenders areas.old areas.new }
{
    if 0 < s {
        write_bytes(kind, areas, b, t.base);
    }
    if 1 < s {
        fit_len(areas.slots, t.old.slots, t.new.slots);
    }
    if 2 < s {
        fit_len(areas.rows, t.old.rows, t.new.rows);
    }
    if 3 < s {
        fit_len(areas.checkpoints, t.old.checkpoints, t.new.checkpoints);
    }
}
