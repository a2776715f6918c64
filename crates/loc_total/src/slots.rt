// What the slots of records say, added up, and how many of them need a row.
// Whole words first, then the records that are left, up to three.
ghost use Rattle.std.specs.Prelude.{◌*◌, ◌≤◌, length};
ghost use Rattle.loc_total.specs.Slots.{SlotTotal};

use crate::Total;
use crate::words::words;
use loc_leaf::Kind;
use loc_leaf::delta_loc::{inline_value, needs_row};

// The records `from` to m, one by one.
fn last_slots(kind: Kind, bytes: &[u8], from: usize, m: usize, words: Total) -> Total
    requires { (from ≤ m) × (m ≤ 1024) × (2 * m ≤ length bytes.now) × SlotTotal kind bytes.now from words }
    ensures { SlotTotal kind bytes.now m result }
{
    let mut t = words;
    for i in from..m {
        let low = bytes[2 * i];
        let high = bytes[2 * i + 1];
        let v = inline_value(kind, low, high);
        t.strides += v.strides as u64;
        t.spans += v.spans as u64;
        t.lacking += u64::from(needs_row(kind, low, high));
    }
    t
}

// The first m records.
pub fn slots_total(kind: Kind, bytes: &[u8], m: usize) -> Total
    requires { (m ≤ 1024) × (2 * m ≤ length bytes.now) }
    ensures { SlotTotal kind bytes.now m result }
{
    let n = m / 4;
    let t = words(kind, bytes, n);
    last_slots(kind, bytes, 4 * n, m, t)
}
