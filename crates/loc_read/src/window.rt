// The reading of numbers that all lie in one window: no order is needed, and no stage.
// The window's sums rule out 17 before the first answer is stored.
ghost use Rattle.std.specs.Prelude.{◌≡◌, length};
ghost use Rattle.loc_leaf.specs.Answers.{answer_of};
ghost use Rattle.loc_calls.specs.Lent.{seen};
ghost use Rattle.loc_calls.specs.Table.{read};
ghost use Rattle.loc_calls.specs.Calls.{call};
ghost use Rattle.loc_calls.specs.Promises.{Read};
ghost use Rattle.loc_runs.specs.Runs.{OneRun};
ghost use Rattle.loc_read.specs.Read.{Tested};

use loc_answer::words::WindowSums;
use loc_calls::Areas;
use loc_leaf::Kind;
use loc_leaf::delta_loc::{LOC_WINDOW, loc_window};
use loc_leaf::file::FILE_HEADER_LEN;
use loc_leaf::refusal::Refusal;
use loc_store::Checked;
use loc_window::LentWindow;
use loc_window::checkpoint::window_end;
use loc_window::plan::plan_window;
use loc_window::window::{copy_slots, window_sums};

// The answers of a list that is one run, or 17.
pub fn read_window(
    kind: Kind,
    a: Areas,
    found: Checked,
    wanted: &[u64],
    m: usize,
    mark: &[u64],
    answers: &mut [u64],
) -> Result<u64, Refusal>
    requires tested { Tested kind (seen a) found wanted.now answers.old }
    requires mark_len { (length mark.now ≡ 128) × OneRun kind found.count wanted.now m mark.now }
    ensures { Read (call kind 0 (read wanted.now answers.old) (seen a.entry)) (answer_of result) answers.new }
{
    let mut bytes = [0u8; 2048];
    let mut body = [0u64; 1025];
    let mut span = [0u64; 1025];
    let w = loc_window(wanted[0]);
    let window = plan_window(kind, a.rows, found.row_count, 0, 0, LOC_WINDOW * w, m);
    copy_slots(
        a.slots,
        FILE_HEADER_LEN + 2 * window.base as usize,
        2 * window.m,
        &mut bytes,
    );
    let lent = LentWindow {
        kind,
        bytes: &bytes,
        m: window.m,
        mark,
        stamp: 1,
        rows: a.rows,
        past: window.past,
        base: window.base,
    };
    if window_sums(&lent, window.first, &mut body, &mut span).is_none() {
        return Err(Refusal::RowMissing);
    }
    let sums = WindowSums {
        body_end: window_end(kind, a.checkpoints, 0, w),
        span_end: window_end(kind, a.checkpoints, 8, w),
        body: &body,
        span: &span,
    };
    sums.put_window(kind, wanted, answers);
    Ok(wanted.len() as u64)
}
