// One line of a listing: six numbers, parted by a space and ended by a line feed.
// 18 is what is not of that form; 19 and 20 are tested on its numbers.
ghost use Rattle.std.specs.Prelude.{◌≡◌};
ghost use Rattle.loc_leaf.specs.Answers.{refusal_of};
ghost use Rattle.loc_parse.specs.Lines.{line_at, fields_refusal};

use crate::Fields;
use loc_leaf::refusal::Refusal;
use loc_number::number_at;

// The line at a place, and the place after its line feed.
pub fn line_at(text: &[u8], at: usize) -> Option<(Fields, usize)>
    ensures { result ≡ line_at text.now at }
{
    let (number, a) = number_at(text, at, b' ', u64::MAX)?;
    let (start, b) = number_at(text, a, b' ', u64::MAX)?;
    let (len, c) = number_at(text, b, b' ', u64::MAX)?;
    let (span_start, d) = number_at(text, c, b' ', u64::MAX)?;
    let (span_len, e) = number_at(text, d, b' ', u64::MAX)?;
    let (count, next) = number_at(text, e, b'\n', 0xffff_ffff)?;
    let spans = count as u32;
    let fields = Fields {
        number,
        start,
        len,
        span_start,
        span_len,
        spans,
    };
    Some((fields, next))
}

// 19: not the number wanted; 20: a span length that is not 8 × span count.
#[tactic(auto, using(std::proofs::lemmas::Bool::Decides::nat_tests), unfolding(crate::specs::Lines::fields_refusal))]
pub fn check_fields(id: u64, f: Fields) -> Result<(), Refusal>
    ensures { refusal_of result ≡ fields_refusal id f }
{
    if f.number != id {
        return Err(Refusal::ListingNumber);
    }
    if f.span_len != 8 * u64::from(f.spans) {
        return Err(Refusal::ListingSpanLen);
    }
    Ok(())
}
