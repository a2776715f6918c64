// The call: its refusals, the pass in arrays, and the answers.
// Nothing is stored to the answers before 16 is ruled out.
ghost use Rattle.std.specs.Prelude.{◌≤◌, length};
ghost use Rattle.loc_leaf.specs.Answers.{answer_of};
ghost use Rattle.loc_calls.specs.Lent.{seen};
ghost use Rattle.loc_calls.specs.Parts.{needed, Fit, parts};
ghost use Rattle.loc_calls.specs.Promises.{Read};
ghost use Rattle.loc_parts.specs.Pass.{Cleared};
ghost use Rattle.loc_parts.specs.Put.{Put};

use crate::Pairs;
use crate::check::pairs_refusal;
use crate::pass::needed_records;
use loc_calls::Areas;
use loc_leaf::Kind;
use loc_leaf::refusal::Refusal;
use loc_leaf::slices::copy;
use loc_store::check::check_areas;

// 16, or the answers, in arrays that are long enough.
fn put_with(
    pairs: Pairs,
    record: u64,
    marks: &mut [bool],
    stage: &mut [u64],
    list: &mut [u64],
    answers: &mut [u64],
) -> Result<u64, Refusal>
    requires { Fit pairs.composites.now pairs.components.now × Cleared (length pairs.composites.now) marks.old stage.old list.old }
    ensures { Put (needed pairs.entry.composites.now pairs.entry.components.now «record») answers.old (answer_of result) answers.new }
{
    let n = needed_records(pairs, record, marks, stage, list);
    if answers.len() < n {
        return Err(Refusal::AnswersTooShort);
    }
    copy(&list[..n], &mut answers[..n]);
    Ok(n as u64)
}

// Up to N pairs.
fn put_in<const N: usize>(pairs: Pairs, record: u64, answers: &mut [u64]) -> Result<u64, Refusal>
    requires { Fit pairs.composites.now pairs.components.now × (length pairs.composites.now ≤ N) × (64 ≤ N) × (N ≤ 1024) }
    ensures { Put (needed pairs.entry.composites.now pairs.entry.components.now «record») answers.old (answer_of result) answers.new }
{
    let mut marks = [false; N];
    let mut stage = [0; N];
    let mut list = [0; N];
    put_with(pairs, record, &mut marks, &mut stage, &mut list, answers)
}

// Refuses by 1, 6; 7, 15, 27, 28, 29, 16. The value is how many records the record needs.
// A few pairs have small arrays, since clearing large ones would take longer than the pass.
pub fn parts(
    a: Areas,
    composites: &[u64],
    components: &[u64],
    record: u64,
    answers: &mut [u64],
) -> Result<u64, Refusal>
    ensures { Read (parts composites.now components.now «record» answers.old (seen a.entry)) (answer_of result) answers.new }
{
    let found = check_areas(Kind::Paired, a)?;
    let pairs = Pairs {
        composites,
        components,
    };
    pairs_refusal(found.count, pairs, record)?;
    if composites.len() <= 64 {
        return put_in::<64>(pairs, record, answers);
    }
    put_in::<1024>(pairs, record, answers)
}
