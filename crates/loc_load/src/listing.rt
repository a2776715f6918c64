// What is printed for an input: the listing of the load that it asks for, or the line of its refusal.
// Each line is put as its record is drawn. Where the buffer is too short nothing is put, and the answer is 0.
ghost use Rattle.std.specs.Prelude.{◌+◌, ◌*◌, ◌≤◌, length};
ghost use Rattle.loc_listing.specs.Text.{Put};
ghost use Rattle.loc_load.specs.Load.{load_listing};
ghost use Rattle.loc_load.specs.Request.{requested, load_text};

use crate::input::read_request;
use crate::xorshift::next_state;
use loc_listing::names::names_text;
use loc_listing::{line_text, refused_text};

// The line of names, then the lines of n records.
fn put_load(seed: u64, n: usize, out: &mut [u8]) -> usize
    requires { (n ≤ 1024) × (53 + 126 * n ≤ length out.old) }
    ensures { Put out.old 0 (load_listing seed n) out.new result × (result ≤ length out.old) }
{
    let mut at = names_text(out);
    let mut x = seed;
    let mut body: u64 = 16;
    let mut span: u64 = 16;
    for i in 0..n {
        let first = next_state(x);
        x = next_state(first);
        let len = 8 * (1 + first % 300);
        let spans = 1 + x % 300;
        let span_len = 8 * spans;
        let fields = [i as u64 + 1, body, len, span, span_len, spans];
        at += line_text(fields, &mut out[at..]);
        body += len;
        span += span_len;
    }
    at
}

// The answer is how many bytes the text has. It surely fits where the buffer has 129,077.
pub fn load_text(input: &[u8], out: &mut [u8]) -> usize
    ensures { Put out.old 0 (load_text (requested input.now) (length out.old)) out.new result × (result ≤ length out.old) }
{
    let asked = match read_request(input) {
        Ok(asked) => asked,
        Err(refusal) => return refused_text(u64::from(refusal), out),
    };
    let n = asked.records as usize;
    if out.len() < 53 + 126 * n {
        return 0;
    }
    put_load(asked.seed, n, out)
}
