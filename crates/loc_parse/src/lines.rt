// The lines of a listing, one after the other, into the lists of a batch.
// Each line is read once, and what is stored is what its numbers say.
ghost use Rattle.std.specs.Prelude.{◌+◌, ◌<◌, ◌^◌};
ghost use Rattle.loc_parse.specs.Lines.{lines_from, empty, parsed};
ghost use Rattle.loc_parse.specs.Lists.{Room, Took};

use crate::Refused;
use crate::form::{check_fields, line_at};
use loc_leaf::refusal::Refusal;
use loc_listing::names::has_names;

// From the place 53 on, of records numbered from `first` on; at most 1,024 lines.
fn take_lines(
    text: &[u8],
    first: u64,
    starts: &mut [u64],
    lens: &mut [u64],
    span_starts: &mut [u64],
    span_counts: &mut [u32],
) -> Result<usize, Refused>
    requires { (first + 1024 < 2 ^ 64) × Room starts.old lens.old span_starts.old span_counts.old }
    ensures { Took (lines_from text.now 1024 first 53 empty) result starts.new lens.new span_starts.new span_counts.new }
{
    let refusal = Refusal::ListingMalformed;
    let mut at = 53;
    for records in 0..1024 {
        if text.len() <= at {
            return Ok(records);
        }
        let Some((f, next)) = line_at(text, at) else {
            return Err(Refused { records, refusal });
        };
        if let Err(refusal) = check_fields(first + records as u64, f) {
            return Err(Refused { records, refusal });
        }
        starts[records] = f.start;
        lens[records] = f.len;
        span_starts[records] = f.span_start;
        span_counts[records] = f.spans;
        at = next;
    }
    if at < text.len() {
        let records = 1024;
        return Err(Refused { records, refusal });
    }
    Ok(1024)
}

// A whole text for an index of `count` records: 18, 19 or 20, or how many records its batch has. They stand in the first places of the lists.
// Four lists and no struct: it takes anybody's, of 1,024 places or more.
pub fn parse(
    count: u64,
    text: &[u8],
    starts: &mut [u64],
    lens: &mut [u64],
    span_starts: &mut [u64],
    span_counts: &mut [u32],
) -> Result<usize, Refused>
    requires { (count + 1025 < 2 ^ 64) × Room starts.old lens.old span_starts.old span_counts.old }
    ensures { Took (parsed count text.now) result starts.new lens.new span_starts.new span_counts.new }
{
    if !has_names(text) {
        return Err(Refused {
            records: 0,
            refusal: Refusal::ListingMalformed,
        });
    }
    take_lines(text, count + 1, starts, lens, span_starts, span_counts)
}
