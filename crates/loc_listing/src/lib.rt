// The text of a listing, put into a buffer that the caller lends.
// Where a buffer is too short nothing is put, and the answer is 0: the length of no text, so who adds lengths needs no test.
#![tactic(auto)]

pub mod names;

ghost use Rattle.std.specs.Prelude.{[], ◌∷◌, ◌++◌, ◌+◌, ◌*◌, ◌^◌, ◌≤◌, ◌<◌, ◌≡◌, length};
ghost use Rattle.loc_listing.specs.Text.{digits, decimal, record_lines, line_text, window_text, refused_text, fits, Put};

// Bytes copied to the start of a buffer. The answer is how many there are.
fn put_bytes(from: &[u8], out: &mut [u8]) -> usize
    requires { length from.now ≤ length out.old }
    ensures { Put out.old 0 from.now out.new result × (result ≡ length from.now) }
{
    let n = from.len();
    out[..n].copy_from_slice(from);
    n
}

// At most `most` digits of n at a place; the answer is the place after them.
fn put_digits(out: &mut [u8], at: usize, n: u64, most: usize) -> usize
    requires { at + most ≤ length out.old }
    ensures { Put out.old at (digits most n) out.new result × (result ≤ at + most) }
{
    if most == 0 {
        return at;
    }
    if n < 10 {
        out[at] = b'0' + n as u8;
        return at + 1;
    }
    let next = put_digits(out, at, n / 10, most - 1);
    out[next] = b'0' + (n % 10) as u8;
    next + 1
}

// A number and the byte that ends it.
fn put_field(out: &mut [u8], at: usize, n: u64, end: u8) -> usize
    requires { at + 21 ≤ length out.old }
    ensures { Put out.old at (decimal n ++ (end ∷ [])) out.new result × (result ≤ at + 21) }
{
    let next = put_digits(out, at, n, 20);
    out[next] = end;
    next + 1
}

// The line of one record: its number, its body's start and length, its spans' start and length, their number.
// The answer is how many bytes it has.
pub fn line_text(fields: [u64; 6], out: &mut [u8]) -> usize
    ensures { Put out.old 0 (line_text fields (length out.old)) out.new result × (result ≤ length out.old) × (result ≤ 126) }
{
    if out.len() < 126 {
        return 0;
    }
    let mut at = 0;
    for n in &fields[..5] {
        at = put_field(out, at, *n, b' ');
    }
    put_field(out, at, fields[5], b'\n')
}

// The lines of n records from `first` on, whose answers stand in a buffer as a paired reading stores them.
fn put_lines(first: u64, answers: &[u64], n: usize, out: &mut [u8]) -> usize
    requires { (126 * n ≤ length out.old) × (6 * n ≤ length answers.now) × (first + n < 2 ^ 64) }
    ensures { Put out.old 0 (record_lines first answers.now n) out.new result × (result ≤ 126 * n) }
{
    let mut at = 0;
    for i in 0..n {
        let j = 6 * i;
        let fields = [
            first + i as u64,
            answers[j + 1],
            answers[j + 2],
            answers[j + 3],
            answers[j + 4],
            answers[j + 5],
        ];
        at += line_text(fields, &mut out[at..]);
    }
    at
}

// Whether n lines surely fit, and each has its number and its six words.
#[tactic(auto, using(std::proofs::lemmas::Bool::Decides::nat_tests), unfolding(crate::specs::Text::fits))]
fn lines_fit(first: u64, words: usize, n: usize, room: usize) -> bool
    ensures { result ≡ fits first words n room }
{
    n <= room / 126 && n <= words / 6 && n as u64 <= u64::MAX - first
}

// A window's text: a line for each of n records from `first` on, by the words of a paired reading. The answer is how many bytes it has.
pub fn window_text(first: u64, answers: &[u64], n: usize, out: &mut [u8]) -> usize
    ensures { Put out.old 0 (window_text first answers.now n (length out.old)) out.new result × (result ≤ length out.old) × (result ≤ 126 * n) }
{
    if !lines_fit(first, answers.len(), n, out.len()) {
        return 0;
    }
    put_lines(first, answers, n, out)
}

// The line of a refusal. The answer is how many bytes it has.
pub fn refused_text(number: u64, out: &mut [u8]) -> usize
    ensures { Put out.old 0 (refused_text number (length out.old)) out.new result × (result ≤ length out.old) × (result ≤ 29) }
{
    if out.len() < 29 {
        return 0;
    }
    let at = put_bytes(b"refused ", out);
    put_field(out, at, number, b'\n')
}
