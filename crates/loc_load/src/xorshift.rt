// The 64-bit xorshift of Marsaglia with left 13, right 7, left 17.
// A state other than 0 never becomes 0, and no two states have the same successor (proofs/StepLaws).
ghost use Rattle.std.specs.Prelude.{◌≡◌};
ghost use Rattle.loc_load.specs.Xorshift.{xorshift};

// The state after a step.
#[tactic(auto, unfolding(crate::specs::Xorshift::xorshift, crate::specs::Xorshift::xor_left, crate::specs::Xorshift::xor_right))]
pub fn next_state(x: u64) -> u64
    ensures { result ≡ xorshift x }
{
    let a = x ^ (x << 13);
    let b = a ^ (a >> 7);
    b ^ (b << 17)
}
