// Whether a batch carries on: 17, 23 and 24.
// The end of the list is as a reading of the last record gives it: the sums of its window, from the checkpoint before the window on.
ghost use Rattle.std.specs.Prelude.{◌≡◌, ◌^◌, ◌<◌};
ghost use Rattle.loc_leaf.specs.Answers.{refusal_of};
ghost use Rattle.loc_leaf.specs.Area.{fill};
ghost use Rattle.loc_leaf.specs.Bytes.{Bytes};
ghost use Rattle.loc_leaf.specs.Kind.{row_width};
ghost use Rattle.loc_calls.specs.Areas.{areas};
ghost use Rattle.loc_calls.specs.Lent.{seen};
ghost use Rattle.loc_calls.specs.Table.{Entry, start_refusal};
ghost use Rattle.loc_calls.specs.Reading.{end_read};
ghost use Rattle.loc_calls.specs.Calls.{first_refusal};
ghost use Rattle.loc_end.specs.Start.{span_to, Ends};

use loc_calls::Areas;
use loc_leaf::Kind;
use loc_leaf::delta_loc::{LOC_WINDOW, loc_window};
use loc_leaf::refusal::Refusal;
use loc_store::Checked;
use loc_total::window::window_total;
use loc_window::checkpoint::window_end;

// Where the list ends in each stream, saturated.
#[derive(Clone, Copy)]
pub struct End {
    pub body: u64,
    pub span: u64,
}

// Where the spans end, so many into a window; a single index has none.
#[tactic(auto, using(crate::proofs::StartLaws::span_paired, crate::proofs::StartLaws::span_single))]
fn span_end(kind: Kind, checkpoints: &[u8], w: u64, spans: u64) -> u64
    requires { (w < 2 ^ 56) × (spans < 2 ^ 44) }
    ensures { (s t : Bytes) → result ≡ span_to kind (areas s t checkpoints.now) w spans }
{
    match kind {
        Kind::Paired => window_end(Kind::Paired, checkpoints, 8, w).saturating_add(8 * spans),
        Kind::Single => 16,
    }
}

// 17, or the ends; an empty list ends at 16 as window 0 begins there.
fn list_end(kind: Kind, a: Areas, found: Checked) -> Result<End, Refusal>
    requires { (first_refusal kind (seen a) ≡ 0) × (found.count ≡ fill 2 a.slots.now) × (found.row_count ≡ fill (row_width kind) a.rows.now) }
    ensures { Ends kind (seen a.entry) result }
{
    let w = loc_window(found.count);
    let base = LOC_WINDOW * w;
    let m = (found.count - base) as usize;
    let total = window_total(kind, a, found.row_count, base, m);
    if total.lacking != 0 {
        return Err(Refusal::RowMissing);
    }
    Ok(End {
        body: window_end(kind, a.checkpoints, 0, w).saturating_add(8 * total.strides),
        span: span_end(kind, a.checkpoints, w, total.spans),
    })
}

// 17; 23 or 24 where a batch whose first record has these starts does not begin at the end of the list.
pub fn check_start(
    kind: Kind,
    a: Areas,
    found: Checked,
    start: u64,
    span_start: u64,
) -> Result<(), Refusal>
    requires { (first_refusal kind (seen a) ≡ 0) × (found.count ≡ fill 2 a.slots.now) × (found.row_count ≡ fill (row_width kind) a.rows.now) }
    ensures { (e : Entry) → e.start ≡ start → e.span_start ≡ span_start
        → refusal_of result ≡ start_refusal (end_read kind (seen a.entry)) e }
{
    let end = list_end(kind, a, found)?;
    if start != end.body {
        return Err(Refusal::BodyNotAtEnd);
    }
    if span_start != end.span {
        return Err(Refusal::SpansNotAtEnd);
    }
    Ok(())
}
