// Reading: its refusals, the plan, the walk into a stage, and the answers.
// A stage keeps the caller's buffer as it was until 17 is ruled out.
ghost use Rattle.std.specs.Prelude.{◌≡◌, ◌*◌, ◌≤◌, length, replicate};
ghost use Rattle.loc_leaf.specs.Area.{fill};
ghost use Rattle.loc_leaf.specs.Answers.{answer_of};
ghost use Rattle.loc_calls.specs.Lent.{seen};
ghost use Rattle.loc_calls.specs.Table.{word_width, read};
ghost use Rattle.loc_calls.specs.Calls.{call};
ghost use Rattle.loc_calls.specs.Promises.{Read};
ghost use Rattle.loc_read.specs.Read.{Tested};

use crate::walk::finish_range_batch;
use crate::window::read_window;
use loc_answer::words::word_width;
use loc_calls::Areas;
use loc_leaf::Kind;
use loc_leaf::refusal::Refusal;
use loc_leaf::slices::copy;
use loc_order::keys::plan_range_batch;
use loc_runs::runs::one_window;
use loc_store::Checked;
use loc_store::check::check_areas;

// The reading in arrays that are long enough.
fn read_with(
    kind: Kind,
    a: Areas,
    found: Checked,
    wanted: &[u64],
    keys: &mut [u64],
    spare: &mut [u64],
    stage: &mut [u64],
    answers: &mut [u64],
) -> Result<u64, Refusal>
    requires tested { Tested kind (seen a) found wanted.now answers.old }
    requires wanted_in_bounds { (length wanted.now ≤ length keys.old) × (length wanted.now ≤ length spare.old) × (word_width kind * length wanted.now ≤ length stage.old) × (stage.old ≡ replicate (length stage.old) 0) }
    ensures { Read (call kind 0 (read wanted.now answers.old) (seen a.entry)) (answer_of result) answers.new }
{
    let n = plan_range_batch(wanted, found.count, keys, spare);
    finish_range_batch(kind, a, found, wanted, &keys[..n], stage)?;
    let words = word_width(kind) * wanted.len();
    copy(&stage[..words], &mut answers[..words]);
    Ok(n as u64)
}

// Up to N numbers, in arrays for as many. WORDS is 6 × N.
fn read_staged<const N: usize, const WORDS: usize>(
    kind: Kind,
    a: Areas,
    found: Checked,
    wanted: &[u64],
    answers: &mut [u64],
) -> Result<u64, Refusal>
    requires { Tested kind (seen a) found wanted.now answers.old × (length wanted.now ≤ N) × (6 * N ≤ WORDS) × (WORDS ≤ 6144) }
    ensures { Read (call kind 0 (read wanted.now answers.old) (seen a.entry)) (answer_of result) answers.new }
{
    let mut keys = [0; N];
    let mut spare = [0; N];
    let mut stage = [0; WORDS];
    read_with(
        kind, a, found, wanted, &mut keys, &mut spare, &mut stage, answers,
    )
}

// What is left once 1, 6, 15 and 16 are tested: numbers of one window, a few numbers, or many.
// A few have small arrays, since clearing large ones would take longer than the reading.
fn read_tested(
    kind: Kind,
    a: Areas,
    found: Checked,
    wanted: &[u64],
    answers: &mut [u64],
) -> Result<u64, Refusal>
    requires { Tested kind (seen a) found wanted.now answers.old }
    ensures { Read (call kind 0 (read wanted.now answers.old) (seen a.entry)) (answer_of result) answers.new }
{
    let mut mark = [0; 128];
    if let Some(m) = one_window(kind, found.count, wanted, &mut mark) {
        return read_window(kind, a, found, wanted, m, &mark, answers);
    }
    if wanted.len() <= 32 {
        return read_staged::<32, 192>(kind, a, found, wanted, answers);
    }
    read_staged::<1024, 6144>(kind, a, found, wanted, answers)
}

// 1, 6; 15, 16, 17; then the answers. The value is how many of the wanted numbers are found.
pub fn range_batch(
    kind: Kind,
    a: Areas,
    wanted: &[u64],
    answers: &mut [u64],
) -> Result<u64, Refusal>
    ensures { Read (call kind 0 (read wanted.now answers.old) (seen a.entry)) (answer_of result) answers.new }
{
    let found = check_areas(kind, a)?;
    if 1024 < wanted.len() {
        return Err(Refusal::TooManyNumbers);
    }
    if answers.len() < word_width(kind) * wanted.len() {
        return Err(Refusal::AnswersTooShort);
    }
    read_tested(kind, a, found, wanted, answers)
}
