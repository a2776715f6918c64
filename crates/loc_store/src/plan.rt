// What truncation and opening decide before they store: the lengths of their areas.
// Of an inner crate; the rows ascend and the areas hold 16 bytes where that is required.
ghost use Rattle.std.specs.Prelude.{◌≡◌, true, ◌+◌, ◌-◌, ◌*◌, ◌^◌, ◌≤◌, ◌<◌, length};
ghost use Rattle.loc_leaf.specs.Rows.{row_list, ascending};
ghost use Rattle.loc_calls.specs.Lent.{seen};
ghost use Rattle.loc_store.specs.Areas.{HoldHeaders, Publishes};
ghost use Rattle.loc_store.specs.Plans.{lengths_for, number_before, cut_past, rules_for};

use crate::{Lengths, Published, Rules};
use loc_calls::Areas;
use loc_leaf::Kind;
use loc_leaf::delta_loc::{
    LOC_WINDOW, checkpoint_prefix, checkpoint_width, cut_for_ovf_row, row_width, rows_up_to,
};
use loc_leaf::file::{FILE_HEADER_LEN, u64_at};

// The lengths of a truncation to n records.
pub fn lengths(kind: Kind, rows: &[u8], n: u64) -> Lengths
    requires { (16 + 2 * n < 2 ^ 64) × (16 ≤ length rows.now) × (ascending 0 (row_list kind rows.now) ≡ true) }
    ensures { (result ≡ lengths_for kind n rows.now) × (result.rows ≤ length rows.now) }
{
    let row_bytes = row_width(kind) * rows_up_to(kind, rows, n);
    let checkpoint_bytes = checkpoint_width(kind) as u64 * (n / LOC_WINDOW);
    Lengths {
        slots: 16 + 2 * n,
        rows: 16 + row_bytes as u64,
        checkpoints: 16 + checkpoint_bytes,
    }
}

// The number of the row that ends at a place, 0 where the rows begin there: the first number is 1 or more.
#[tactic(auto, unfolding(crate::specs::Plans::number_before))]
pub fn number_before(kind: Kind, rows: &[u8], end: usize) -> u64
    ensures { result ≡ number_before kind rows.now end }
{
    if end <= FILE_HEADER_LEN {
        return 0;
    }
    u64_at(rows, end - row_width(kind))
}

// The count that the cut rule keeps of n records whose rows end at a place, with a row of this number.
#[tactic(auto, unfolding(crate::specs::Plans::cut_past))]
pub fn cut_count(kind: Kind, slots: &[u8], rows: &[u8], n: u64, end: usize, last: u64) -> u64
    requires { (end ≤ length rows.now) × (last ≡ number_before kind rows.now end) }
    ensures { (result ≡ cut_past kind slots.now rows.now n end) × (result ≤ n) }
{
    let width = row_width(kind);
    if rows.len() - end < width {
        return n;
    }
    cut_for_ovf_row(kind, slots, n, last, &rows[end..end + width])
}

// The lengths of an opening's two truncations. Where the cut rule keeps all that the checkpoint rule kept, they are the same.
pub fn rules(kind: Kind, a: Areas, p: Published) -> Rules
    requires hold_headers { HoldHeaders (seen a) × Publishes kind (seen a) p }
    requires rows_value { ascending 0 (row_list kind a.rows.now) ≡ true }
    ensures { result ≡ rules_for kind (seen a.entry) }
{
    let n = checkpoint_prefix(p.slots.count as u64, p.checkpoints.count as u64);
    let checkpoint = lengths(kind, a.rows, n);
    let end = checkpoint.rows as usize;
    let last = number_before(kind, a.rows, end);
    let kept = cut_count(kind, a.slots, a.rows, n, end, last);
    if kept == n {
        return Rules {
            checkpoint,
            cut: checkpoint,
        };
    }
    Rules {
        checkpoint,
        cut: lengths(kind, a.rows, kept),
    }
}
