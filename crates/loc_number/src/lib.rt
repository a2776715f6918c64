// Decimal numbers read from bytes: no zero in front, within a limit, ended by a given byte.
// Every function is total; what is not of that form is `None`.
#![tactic(auto)]

ghost use Rattle.std.specs.Prelude.{◌≡◌, ◌+◌, ◌≤◌, drop, Option, Some, None, cond};
ghost use Rattle.loc_number.specs.Decimal.{with, goes_on, digits_on, number_at};

// The number that v becomes with one digit more, where it is at most `most`.
#[tactic(auto, using(std::proofs::lemmas::Bool::Decides::nat_tests), unfolding(crate::specs::Decimal::goes_on))]
fn with_digit(v: u64, b: u8, most: u64) -> Option<u64>
    ensures { result ≡ cond (goes_on most v b) (Some (with v b)) None }
{
    if !b.is_ascii_digit() {
        return None;
    }
    let next = v.checked_mul(10)?.checked_add(u64::from(b - b'0'))?;
    (next <= most).then_some(next)
}

// From a place on, where the digits of v stand before it.
#[tactic(auto, using(std::proofs::lemmas::Bool::Decides::nat_tests, crate::proofs::NumberLaws::on_byte, crate::proofs::NumberLaws::on_past))]
fn digits_on(s: &[u8], at: usize, v: u64, end: u8, most: u64) -> Option<(u64, usize)>
    ensures { result ≡ digits_on most end v at (drop at s.now) }
{
    let mut w = v;
    for i in at..s.len() {
        let b = s[i];
        if b == end {
            return Some((w, i + 1));
        }
        if w == 0 {
            return None;
        }
        w = with_digit(w, b, most)?;
    }
    None
}

// The number at a place, and the place after the byte that ends it.
#[tactic(auto, using(crate::proofs::NumberLaws::starts_byte, crate::proofs::NumberLaws::starts_past))]
pub fn number_at(s: &[u8], at: usize, end: u8, most: u64) -> Option<(u64, usize)>
    ensures { result ≡ number_at most end s.now at }
{
    let first = with_digit(0, *s.get(at)?, most)?;
    digits_on(s, at + 1, first, end, most)
}
