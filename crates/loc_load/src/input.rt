// What the input asks for: a seed and a number of records, each on a line of its own.
// Any bytes are read; what is not of that form is 18.
ghost use Rattle.std.specs.Prelude.{◌≡◌};
ghost use Rattle.loc_load.specs.Request.{asked_of, requested};

use crate::Request;
use loc_leaf::refusal::Refusal;
use loc_number::number_at;

// 18, then 25: seed 0, then 26: more than 1,024 records.
pub fn read_request(input: &[u8]) -> Result<Request, Refusal>
    ensures { asked_of result ≡ requested input.now }
{
    let (seed, at) = number_at(input, 0, b'\n', u64::MAX).ok_or(Refusal::ListingMalformed)?;
    let (records, end) = number_at(input, at, b'\n', u64::MAX).ok_or(Refusal::ListingMalformed)?;
    if end != input.len() {
        return Err(Refusal::ListingMalformed);
    }
    if seed == 0 {
        return Err(Refusal::SeedZero);
    }
    if 1024 < records {
        return Err(Refusal::TooManyRecords);
    }
    Ok(Request { seed, records })
}
