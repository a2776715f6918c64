// Records of a window one by one, each sum stored: the sums after them, or that one of them lacks its row.
// Each kind has its own instance of the loop, so that no record asks which kind it is of.
ghost use Rattle.std.specs.Prelude.{◌≡◌, ◌^◌, ◌<◌};
ghost use Rattle.loc_window.specs.Window.{kind_of, plus_value, Ready, Recorded, RecordReady, OneMore};

use crate::rows::{find_row, row_value_at};
use crate::{LentWindow, Sums, kind_of};
use loc_leaf::Value;
use loc_leaf::delta_loc::{inline_value, needs_row};

// The sums with one value more, where so many rows are passed.
fn plus(s: Sums, v: Value, row: usize) -> Sums
    requires { (s.strides < 2 ^ 60) × (s.spans < 2 ^ 60) }
    ensures { result ≡ plus_value s v row }
{
    Sums {
        strides: s.strides + v.strides as u64,
        spans: s.spans + v.spans as u64,
        row,
        block: s.block,
    }
}

// The sums with record k of the window more, or that it lacks its row.
fn one_more<const PAIRED: bool>(w: &LentWindow<'_>, k: usize, s: Sums) -> Option<Sums>
    requires { RecordReady (kind_of PAIRED) w.now.base w.now.bytes.now w.now.rows.now w.now.past k s }
    ensures { OneMore (kind_of PAIRED) w.now.base w.now.bytes.now w.now.rows.now k s result }
{
    let kind = kind_of::<PAIRED>();
    let low = w.bytes[2 * k];
    let high = w.bytes[2 * k + 1];
    if needs_row(kind, low, high) {
        let row = find_row::<PAIRED>(w, s.row, w.base + k as u64 + 1)?;
        return Some(plus(s, row_value_at(kind, w.rows, row), row + 1));
    }
    Some(plus(s, inline_value(kind, low, high), s.row))
}

// The records `from` to n.
pub fn records<const PAIRED: bool>(
    w: &LentWindow<'_>,
    from: usize,
    n: usize,
    s: Sums,
    body: &mut [u64],
    span: &mut [u64],
) -> Option<Sums>
    requires { Ready (kind_of PAIRED) w.now.base w.now.bytes.now w.now.rows.now w.now.past from n s body.old span.old }
    ensures { Recorded (kind_of PAIRED) w.now.base w.now.bytes.now w.now.rows.now s.block from n body.old span.old body.new span.new result }
{
    let mut t = s;
    body[from] = t.strides;
    span[from] = t.spans;
    for k in from..n {
        t = one_more::<PAIRED>(w, k, t)?;
        body[k + 1] = t.strides;
        span[k + 1] = t.spans;
    }
    Some(t)
}
