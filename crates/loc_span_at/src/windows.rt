// The windows of an index one after the other, by quarters: the crossing in the first that holds the address, or 17 for a slot of any.
// A quarter whose spans do not hold the address needs only its total and its rows; halves then have a quarter to go through, not a window.
ghost use Rattle.std.specs.Prelude.{◌≡◌, cond, ◌&&◌, ◌+◌, ◌-◌, ◌*◌, ◌/◌, ◌%◌, ◌^◌, ◌<◌, min, leb, ltb, eqb};
ghost use Rattle.loc_leaf.specs.declared.Kind.TheVariants.{Paired};
ghost use Rattle.loc_calls.specs.Lent.{seen};
ghost use Rattle.loc_calls.specs.SpanAt.{crossing_of, span_at};
ghost use Rattle.loc_store.specs.Areas.{Checks};
ghost use Rattle.loc_span_at.specs.Windows.{crossing_after, Quarter};

use crate::Part;
use crate::find::find;
use loc_calls::{Areas, SpanAt};
use loc_leaf::Kind;
use loc_leaf::delta_loc::LOC_WINDOW;
use loc_leaf::refusal::Refusal;
use loc_store::Checked;
use loc_store::check::check_areas;
use loc_whole::RunningSums;
use loc_whole::totals::totals;
use loc_window::checkpoint::window_end;

// The records of a quarter.
const QUARTER: u64 = 256;

// How many records quarter q has, counted from 0 over the whole index.
fn quarter_rest(count: u64, q: u64) -> usize
    requires { 256 * q < count }
    ensures { result ≡ min 256 (count - 256 * q) }
{
    (count - QUARTER * q).min(QUARTER) as usize
}

// The spans of a window before the quarter that follows q, with those of q: none where a window begins.
fn next_before(before: u64, spans: u64, q: u64) -> u64
    requires { before + spans < 2 ^ 64 }
    ensures { result ≡ cond (eqb (q % 4) 3) 0 (before + spans) }
{
    if q % 4 == 3 { 0 } else { before + spans }
}

// Whether the spans of a window that follow the first `before` hold an address. Their end may lie past 2^64: it is not saturated.
fn spans_hold(start: u64, before: u64, spans: u64, address: u64) -> bool
    ensures { result ≡ (leb (start + 8 * before) address && ltb address (start + 8 * (before + spans))) }
{
    if address < start {
        return false;
    }
    let t = (address - start) / 8;
    before <= t && t - before < spans
}

// The crossing up to the end of a quarter, of `total` spans, where `found` is the one before it: the lowest record counts.
fn first_crossing(
    found: Result<SpanAt, Refusal>,
    a: Areas<'_>,
    row_count: usize,
    p: Part,
    total: u64,
    address: u64,
    sums: &mut RunningSums,
) -> Result<SpanAt, Refusal>
    requires quarter { Quarter (seen a) row_count (p.base / 256) p.m p.row p.before total × (256 * (p.base / 256) ≡ p.base) }
    requires found_value { crossing_of found ≡ crossing_after (seen a) address 0 (256 * (p.base / 256)) }
    ensures { crossing_of result ≡ crossing_after (seen a.entry) address 0 (256 * (p.base / 256) + p.m) }
{
    if found.is_ok() {
        return found;
    }
    let start = window_end(Kind::Paired, a.checkpoints, 8, p.base / LOC_WINDOW);
    if !spans_hold(start, p.before, total, address) {
        return found;
    }
    let at = address - start;
    let span = find(a, row_count, at / 8, p, sums);
    Ok(SpanAt {
        record: span.record,
        index: span.index,
        remainder: at % 8,
    })
}

// 17, 21, of areas that are checked; every quarter is passed, also once the address is found.
fn span_in(
    a: Areas<'_>,
    checked: Checked,
    address: u64,
    sums: &mut RunningSums,
) -> Result<SpanAt, Refusal>
    requires { Checks Paired (seen a) (Ok checked) }
    ensures { crossing_of result ≡ span_at (seen a.entry) address }
{
    let count = checked.count;
    let row_count = checked.row_count;
    let mut found = Err(Refusal::AddressNotHeld);
    let mut row: usize = 0;
    let mut before: u64 = 0;
    for q in 0..(count + 255) / QUARTER {
        let base = QUARTER * q;
        let m = quarter_rest(count, q);
        let p = Part {
            base,
            m,
            row,
            before,
        };
        let Some(s) = totals(a, row_count, base, m, row, false, sums) else {
            return Err(Refusal::RowMissing);
        };
        found = first_crossing(found, a, row_count, p, s.spans, address, sums);
        before = next_before(before, s.spans, q);
        row = s.row;
    }
    found
}

// Refuses by 1, 6; 17, 21.
pub fn span_at(a: Areas<'_>, address: u64) -> Result<SpanAt, Refusal>
    ensures { crossing_of result ≡ span_at (seen a.entry) address }
{
    let checked = check_areas(Kind::Paired, a)?;
    let mut sums = RunningSums {
        body: [0; 257],
        span: [0; 257],
    };
    span_in(a, checked, address, &mut sums)
}
