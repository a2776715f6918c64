// The walk over the windows of the wanted numbers: their answers, or 17.
// Keys in any order would do; no answer rests on it.
ghost use Rattle.std.specs.Prelude.{◌≡◌, ◌*◌, ◌≤◌, length, replicate};
ghost use Rattle.loc_leaf.specs.Answers.{refusal_of};
ghost use Rattle.loc_calls.specs.Lent.{seen};
ghost use Rattle.loc_calls.specs.Table.{word_width};
ghost use Rattle.loc_order.specs.Order.{sorted};
ghost use Rattle.loc_order.specs.Keys.{keys_from};
ghost use Rattle.loc_read.specs.Walk.{Readable, Finished};

use loc_answer::words::WindowSums;
use loc_calls::Areas;
use loc_leaf::Kind;
use loc_leaf::delta_loc::{LOC_WINDOW, loc_window};
use loc_leaf::file::FILE_HEADER_LEN;
use loc_leaf::refusal::Refusal;
use loc_runs::runs::{run_at, wanted_by};
use loc_store::Checked;
use loc_window::checkpoint::window_end;
use loc_window::plan::plan_window;
use loc_window::window::{copy_slots, slot_step};
use loc_window::{LentWindow, Sums};

// The answers of all keys, each at its number's place, or 17 where a slot that is looked at lacks its row.
// From window to window go the rows `passed`, which are those numbered up to the last window's `end`.
pub fn finish_range_batch(
    kind: Kind,
    a: Areas,
    found: Checked,
    wanted: &[u64],
    keys: &[u64],
    out: &mut [u64],
) -> Result<(), Refusal>
    requires readable { Readable kind (seen a) found.count found.row_count }
    requires wanted_len_bound { (length wanted.now ≤ 1024) × (keys.now ≡ sorted (keys_from found.count 0 wanted.now)) × (word_width kind * length wanted.now ≤ length out.old) × (out.old ≡ replicate (length out.old) 0) }
    ensures { Finished kind (seen a.entry) wanted.now out.new (refusal_of result) }
{
    let mut bytes = [0u8; 2048];
    let mut body = [0u64; 1025];
    let mut span = [0u64; 1025];
    let mut mark = [0; 128];
    let mut passed = 0;
    let mut end = 0;
    let mut i = 0;
    let mut walked = Ok(());
    // no range says it: each turn goes on to the end of its run
    'windows: while i < keys.len() {
        let stamp = i as u64 + 1;
        let run = run_at(kind, found.count, wanted, keys, i, stamp, &mut mark);
        let w = loc_window(wanted_by(wanted, keys, i));
        let window = plan_window(
            kind,
            a.rows,
            found.row_count,
            passed,
            end,
            LOC_WINDOW * w,
            run.m,
        );
        copy_slots(
            a.slots,
            FILE_HEADER_LEN + 2 * window.base as usize,
            2 * window.m,
            &mut bytes,
        );
        let lent = LentWindow {
            kind,
            bytes: &bytes,
            m: window.m,
            mark: &mark,
            stamp,
            rows: a.rows,
            past: window.past,
            base: window.base,
        };
        let mut s = Sums {
            strides: 0,
            spans: 0,
            row: window.first,
            block: 0,
        };
        // no range says it: a step goes on by as many blocks as it passes
        while 8 * s.block < lent.m {
            let Some(next) = slot_step(&lent, s, &mut body, &mut span) else {
                walked = Err(Refusal::RowMissing);
                break 'windows;
            };
            s = next;
        }
        let sums = WindowSums {
            body_end: window_end(kind, a.checkpoints, 0, w),
            span_end: window_end(kind, a.checkpoints, 8, w),
            body: &body,
            span: &span,
        };
        sums.put_run(kind, wanted, keys, i, run.end, out);
        passed = window.past;
        end = window.base + LOC_WINDOW;
        i = run.end;
    }
    walked
}
