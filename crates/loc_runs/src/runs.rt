// The keys of one window: where they end, how many of the window's records they look at, and which blocks they mark.
// A block is eight records; a stamp marks it for one run, so that marks need no clearing.
ghost use Rattle.std.specs.Prelude.{◌≡◌, true, ◌-◌, ◌/◌, ◌<◌, ◌≤◌, min, max, length, get_or, set, IfSome};
ghost use Rattle.loc_leaf.specs.Kind.{window_of, within_window};
ghost use Rattle.loc_calls.specs.Reading.{before, looked_at, within};
ghost use Rattle.loc_order.specs.Order.{All};
ghost use Rattle.loc_order.specs.Keys.{place_of, wanted_by, KeyOf};
ghost use Rattle.loc_runs.specs.Runs.{IsRun, OneRun};

use crate::Run;
use loc_leaf::Kind;
use loc_leaf::delta_loc::{LOC_WINDOW, loc_window, loc_within};
use loc_order::keys::in_range;

// The records of a number's window up to the count.
fn window_rest(count: u64, id: u64) -> usize
    requires { (0 < id) × (id ≤ count) }
    ensures { result ≡ min 1024 (count - before id) }
{
    (count - LOC_WINDOW * loc_window(id)).min(LOC_WINDOW) as usize
}

// How many records of its window a reading of a number looks at.
fn looked_at(kind: Kind, count: u64, id: u64) -> usize
    requires { (0 < id) × (id ≤ count) }
    ensures { result ≡ looked_at kind count id }
{
    match kind {
        Kind::Paired => loc_within(id) + 1,
        Kind::Single => window_rest(count, id),
    }
}

// The number that a key is of.
pub fn wanted_by(wanted: &[u64], keys: &[u64], t: usize) -> u64
    requires { (t < length keys.now) × (place_of (get_or keys.now t 0) < length wanted.now) }
    ensures { result ≡ wanted_by wanted.now keys.now t }
{
    wanted[(keys[t] % 1024) as usize]
}

// One number of a run: its block marked, and the most records that a number looks at.
fn mark_block(kind: Kind, count: u64, id: u64, m: usize, stamp: u64, mark: &mut [u64]) -> usize
    requires { (0 < id) × (id ≤ count) × (length mark.old ≡ 128) }
    ensures { (result ≡ max m (looked_at kind count id)) × (mark.new ≡ set mark.old (within_window id / 8) stamp) }
{
    mark[loc_within(id) / 8] = stamp;
    m.max(looked_at(kind, count, id))
}

// The run of keys from a place on whose numbers lie in the window of the first.
// Keys in any order would do; sorted ones have one run for each window.
pub fn run_at(
    kind: Kind,
    count: u64,
    wanted: &[u64],
    keys: &[u64],
    from: usize,
    stamp: u64,
    mark: &mut [u64],
) -> Run
    requires { (from < length keys.now) × All (KeyOf count wanted.now) keys.now × (length mark.old ≡ 128) }
    ensures { IsRun kind count wanted.now keys.now from result.end result.m stamp mark.new }
{
    let id = wanted_by(wanted, keys, from);
    let w = loc_window(id);
    let mut m = mark_block(kind, count, id, 0, stamp, mark);
    for end in from + 1..keys.len() {
        let next = wanted_by(wanted, keys, end);
        if loc_window(next) != w {
            return Run { end, m };
        }
        m = mark_block(kind, count, next, m, stamp, mark);
    }
    Run { end: keys.len(), m }
}

// Whether a number is a record's, and lies in a window.
fn in_window(id: u64, count: u64, w: u64) -> bool
    ensures { result ≡ true → (within count id ≡ true) × (window_of id ≡ w) }
{
    in_range(id, count) && loc_window(id) == w
}

// How many records of its window a list looks at whose numbers all lie in one window, and their blocks marked with 1.
// None where there is no number, one that is no record's, or one of another window.
pub fn one_window(kind: Kind, count: u64, wanted: &[u64], mark: &mut [u64]) -> Option<usize>
    requires { (length wanted.now ≤ 1024) × (length mark.old ≡ 128) }
    ensures { IfSome result (λ m. OneRun kind count wanted.now m mark.new) }
{
    let mut most = *wanted.first()?;
    let w = loc_window(most);
    for &id in wanted {
        if !in_window(id, count, w) {
            return None;
        }
        mark[loc_within(id) / 8] = 1;
        most = most.max(id);
    }
    Some(looked_at(kind, count, most))
}
