// The plan of a window: both places of its rows, found in one search by quarters.
// It goes on from the rows of the window before, since windows of a list rise, and no branch of it depends on a row.
ghost use Rattle.std.specs.Prelude.{◌≡◌, true, ◌+◌, ◌-◌, ◌*◌, ◌/◌, ◌^◌, ◌≤◌, ◌<◌};
ghost use Rattle.loc_leaf.specs.Area.{fill};
ghost use Rattle.loc_leaf.specs.Kind.{row_width};
ghost use Rattle.loc_leaf.specs.Quarters.{Counts, Near};
ghost use Rattle.loc_leaf.specs.Rows.{row_list, ascending, rows_up_to};
ghost use Rattle.loc_window.specs.Window.{Rising};
ghost use Rattle.loc_window.specs.Planned.{planned, Nearing};

use crate::PlannedWindow;
use crate::rows::row_number;
use loc_leaf::Kind;
use loc_leaf::delta_loc::LOC_WINDOW;

// 1 where the row at a place has a number up to n, else 0.
fn passes(kind: Kind, rows: &[u8], row: usize, n: u64) -> usize
    requires { (ascending 0 (row_list kind rows.now) ≡ true) × (row < fill (row_width kind) rows.now) }
    ensures { Counts (rows_up_to n (row_list kind rows.now)) row result }
{
    usize::from(row_number(kind, rows, row) <= n)
}

// A place that is further on by as many of three quarters as have a last row with a number up to n.
fn advance(kind: Kind, rows: &[u8], from: usize, left: usize, n: u64) -> usize
    requires { (ascending 0 (row_list kind rows.now) ≡ true) × (3 ≤ left) × (from + left ≤ fill (row_width kind) rows.now) × Near from left (rows_up_to n (row_list kind rows.now)) }
    ensures { Near result (left - 3 * ((left + 1) / 4)) (rows_up_to n (row_list kind rows.now)) × (result ≤ from + 3 * ((left + 1) / 4)) }
{
    let quarter = (left + 1) / 4;
    let one = passes(kind, rows, from + quarter - 1, n);
    let two = passes(kind, rows, from + 2 * quarter - 1, n);
    let three = passes(kind, rows, from + 3 * quarter - 1, n);
    from + (one + two + three) * quarter
}

// The last rows, one by one.
fn plan_last(kind: Kind, rows: &[u8], left: usize, near: PlannedWindow) -> PlannedWindow
    requires { Nearing kind rows.now near.base near.first near.past left × (near.base + 1024 < 2 ^ 64) }
    ensures { result ≡ planned (row_list kind rows.now) near.base near.m }
{
    let top = near.base + LOC_WINDOW;
    let mut window = near;
    for _ in 0..left {
        window.first += passes(kind, rows, window.first, near.base);
        window.past += passes(kind, rows, window.past, top);
    }
    window
}

// From the rows numbered up to `end` on: between there and the window's last number are no more rows than numbers.
fn plan_from(
    kind: Kind,
    rows: &[u8],
    count: usize,
    passed: usize,
    end: u64,
    base: u64,
    m: usize,
) -> PlannedWindow
    requires { Rising kind rows.now count × (passed ≡ rows_up_to end (row_list kind rows.now)) × (end ≤ base) × (base + 1024 < 2 ^ 64) }
    ensures { result ≡ planned (row_list kind rows.now) base m }
{
    let top = base + LOC_WINDOW;
    let mut window = PlannedWindow {
        base,
        m,
        first: passed,
        past: passed,
    };
    let mut left = ((count - passed) as u64).min(top - end) as usize;
    // no count: three quarters of what is left are passed or dropped at once
    while 3 <= left {
        window.first = advance(kind, rows, window.first, left, base);
        window.past = advance(kind, rows, window.past, left, top);
        left -= 3 * ((left + 1) / 4);
    }
    plan_last(kind, rows, left, window)
}

// The window that follows record `base`, of which m records are looked at; `passed` rows are numbered up to `end`.
pub fn plan_window(
    kind: Kind,
    rows: &[u8],
    count: usize,
    passed: usize,
    end: u64,
    base: u64,
    m: usize,
) -> PlannedWindow
    requires { Rising kind rows.now count × (passed ≡ rows_up_to end (row_list kind rows.now)) × (base + 1024 < 2 ^ 64) }
    ensures { result ≡ planned (row_list kind rows.now) base m }
{
    if base < end {
        return plan_from(kind, rows, count, 0, 0, base, m);
    }
    plan_from(kind, rows, count, passed, end, base, m)
}
