// What an append decides before it stores: its refusals 7 to 13, 17 and 22 to 24 and, where there is none, its stage.
// Nothing is stored here.
ghost use Rattle.std.specs.Prelude.{◌≡◌, Ok, ◌+◌, ◌*◌, ◌≤◌, ◌<◌, length};
ghost use Rattle.loc_calls.specs.Lent.{seen, lists};
ghost use Rattle.loc_batch.specs.Lists.{Held};
ghost use Rattle.loc_store.specs.Areas.{Finds, Checks};
ghost use Rattle.loc_append.specs.Plans.{TestedOn, EndReached, Reaches, Planned};

use crate::Stage;
use loc_batch::batch::{check_batch, lists_agree};
use loc_batch::entry::record_at;
use loc_calls::{Areas, Batch};
use loc_end::start::check_start;
use loc_leaf::Kind;
use loc_leaf::delta_loc::{LOC_WINDOW, checkpoint_width, row_width};
use loc_leaf::refusal::Refusal;
use loc_store::{Checked, Lengths};

// 13 where n pieces behind an end lie past an area of this size, or the end that they reach.
fn reach_end(size: usize, end: u64, width: usize, n: usize) -> Result<u64, Refusal>
    requires { (end ≤ size) × (0 < width) }
    ensures { EndReached size (end + width * n) result }
{
    let room = size - end as usize;
    if room / width < n {
        return Err(Refusal::PastArea);
    }
    Ok(end + (width * n) as u64)
}

// 13, or the stage of n records, so many of them with rows, on areas of which this was found.
fn reach(kind: Kind, a: Areas, found: Checked, n: usize, with_rows: usize) -> Result<Stage, Refusal>
    requires { Finds kind (seen a) found }
    ensures { Reaches kind (seen a.entry) found n with_rows result }
{
    let base = found.count;
    let old = found.ends;
    let slots = reach_end(a.slots.len(), old.slots, 2, n)?;
    let rows = reach_end(a.rows.len(), old.rows, row_width(kind), with_rows)?;
    let windows = ((base + n as u64) / LOC_WINDOW - base / LOC_WINDOW) as usize;
    let checkpoints = reach_end(
        a.checkpoints.len(),
        old.checkpoints,
        checkpoint_width(kind),
        windows,
    )?;
    Ok(Stage {
        base,
        old,
        new: Lengths {
            slots,
            rows,
            checkpoints,
        },
    })
}

// 17, 23, 24, then the refusals of the records, or how many of them have rows.
fn check_append(kind: Kind, a: Areas, found: Checked, b: Batch) -> Result<usize, Refusal>
    requires checks { Checks kind (seen a) (Ok found) × (0 < length b.lens.now) }
    requires holds { Held kind (lists b) (length b.lens.now) }
    ensures { TestedOn kind (seen a.entry) (lists b.entry) result }
{
    let e = record_at(kind, b, 0);
    check_start(kind, a, found, e.start, e.span_start)?;
    check_batch(kind, b)
}

// 7 to 13, 17, 22 to 24, or the stage of the batch, on areas of which this was found.
pub fn plan_append(kind: Kind, a: Areas, found: Checked, b: Batch) -> Result<Stage, Refusal>
    requires { Checks kind (seen a) (Ok found) }
    ensures { Planned kind (seen a.entry) (lists b.entry) result }
{
    if !lists_agree(kind, b) {
        return Err(Refusal::ListsDiffer);
    }
    let n = b.lens.len();
    if n == 0 {
        return Ok(Stage {
            base: found.count,
            old: found.ends,
            new: found.ends,
        });
    }
    let with_rows = check_append(kind, a, found, b)?;
    reach(kind, a, found, n, with_rows)
}
