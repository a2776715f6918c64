// The refusals that count, pairs and record decide: 7, 15, 27, 28, 29.
// One pass finds the least number that a pair gives, since each is tested over all pairs before the next.
ghost use Rattle.std.specs.Prelude.{◌≡◌, ◌≤◌, length};
ghost use Rattle.loc_leaf.specs.Answers.{refuse, ◌or_else◌, number_of, refusal_of};
ghost use Rattle.loc_calls.specs.Parts.{strange, first_fault, pairs_refusal};
ghost use Rattle.loc_parts.specs.Faults.{pair_fault, least_fault};

use crate::Pairs;
use loc_leaf::refusal::Refusal;
use loc_order::keys::in_range;

// 27 or 28, of a pair whose component is not below its composite.
fn raised_fault(count: u64, c: u64, p: u64) -> Refusal
    requires { c ≤ p }
    ensures { number_of result ≡ (refuse (strange count c p) 27 or_else 28) }
{
    if c == 0 || count < p {
        Refusal::NotARecord
    } else {
        Refusal::ComponentNotBelow
    }
}

// The first of 27, 28, 29 that the pair (c, p) gives, which stands after (d, q).
// Where p is below c, neither is strange unless p is 0 or c past the count.
fn pair_fault(count: u64, d: u64, q: u64, c: u64, p: u64) -> Result<(), Refusal>
    ensures { refusal_of result ≡ pair_fault count d q c p }
{
    if c <= p {
        return Err(raised_fault(count, c, p));
    }
    if p == 0 || count < c {
        return Err(Refusal::NotARecord);
    }
    if (d, q) < (c, p) {
        Ok(())
    } else {
        Err(Refusal::PairsNotAscending)
    }
}

// The one with the lesser number of what was found so far and a fault more.
fn least_fault(found: Result<(), Refusal>, r: Refusal) -> Result<(), Refusal>
    ensures { refusal_of result ≡ least_fault (refusal_of found) (number_of r) }
{
    match found {
        Ok(()) => Err(r),
        Err(x) => {
            let old = u64::from(x);
            let new = u64::from(r);
            if new < old { Err(r) } else { found }
        }
    }
}

// 27, 28, 29.
fn first_fault(count: u64, pairs: Pairs) -> Result<(), Refusal>
    requires { length pairs.composites.now ≡ length pairs.components.now }
    ensures { refusal_of result ≡ first_fault count pairs.entry.composites.now pairs.entry.components.now (length pairs.entry.composites.now) }
{
    let mut found = Ok(());
    let mut d = 0;
    let mut q = 0;
    for (&c, &p) in pairs.composites.iter().zip(pairs.components) {
        if let Err(r) = pair_fault(count, d, q, c, p) {
            found = least_fault(found, r);
        }
        d = c;
        q = p;
    }
    found
}

// 7, 15, 27, 28, 29.
pub fn pairs_refusal(count: u64, pairs: Pairs, record: u64) -> Result<(), Refusal>
    ensures { refusal_of result ≡ pairs_refusal count pairs.entry.composites.now pairs.entry.components.now «record» }
{
    if pairs.composites.len() != pairs.components.len() {
        return Err(Refusal::ListsDiffer);
    }
    if 1024 < pairs.composites.len() {
        return Err(Refusal::TooManyNumbers);
    }
    if !in_range(record, count) {
        return Err(Refusal::NotARecord);
    }
    first_fault(count, pairs)
}
