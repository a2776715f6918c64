// The public calls exported with C linkage, for programs in other languages.
// They ask nothing: each takes areas, lists and buffers of any length and content. Areas must not overlap, as C cannot say.
#![tactic(auto)]

pub mod create_loc;
pub mod delta_loc;

ghost use Rattle.std.specs.Prelude.{◌≡◌};
ghost use Rattle.loc_leaf.specs.Answers.{answer_of};
ghost use Rattle.loc_exports.specs.Given.{given};

use loc_leaf::refusal::Refusal;

// An answer as C takes it: the number is returned, and the value stored, 0 on a refusal.
fn give(answer: Result<u64, Refusal>, value: &mut u64) -> u64
    ensures { given result value.new ≡ answer_of answer }
{
    match answer {
        Ok(v) => {
            *value = v;
            0
        }
        Err(refusal) => {
            *value = 0;
            u64::from(refusal)
        }
    }
}
