// The words of one wanted number, at its place.
// Place p of w words each begins at word w × p.
ghost use Rattle.std.specs.Prelude.{◌≡◌, ◌+◌, ◌*◌, ◌≤◌, length};
ghost use Rattle.loc_calls.specs.Table.{word_width};
ghost use Rattle.loc_answer.specs.Words.{Put, Summed, sum_words};

use loc_leaf::Kind;

// The sums before and after each record of a window, and the ends before the window.
#[derive(Clone, Copy)]
pub struct WindowSums<'a> {
    pub body_end: u64,
    pub span_end: u64,
    pub body: &'a [u64],
    pub span: &'a [u64],
}

// How many words an answer has.
pub fn word_width(kind: Kind) -> usize
    ensures { (result ≡ word_width kind) × (result ≤ 6) }
{
    match kind {
        Kind::Paired => 6,
        Kind::Single => 3,
    }
}

fn put_at<const N: usize>(out: &mut [u64], p: usize, words: [u64; N])
    requires { N * p + N ≤ length out.old }
    ensures { Put N out.old p words.entry out.new }
{
    let i = N * p;
    out[i..i + N].copy_from_slice(&words);
}

impl<'a> WindowSums<'a> {
    // The words of the window's record j, at place p.
    pub fn put_words(self, kind: Kind, j: usize, p: usize, out: &mut [u64])
        requires { Summed self.body.now self.span.now j × (word_width kind * p + word_width kind ≤ length out.old) }
        ensures { Put (word_width kind) out.old p (sum_words kind self.entry.body_end self.entry.span_end self.entry.body.now self.entry.span.now j) out.new }
    {
        let start = self.body_end.saturating_add(8 * self.body[j]);
        match kind {
            Kind::Paired => {
                let strides = self.body[j + 1] - self.body[j];
                let spans = self.span[j + 1] - self.span[j];
                let span_start = self.span_end.saturating_add(8 * self.span[j]);
                put_at(
                    out,
                    p,
                    [1, start, 8 * strides, span_start, 8 * spans, spans],
                );
            }
            Kind::Single => {
                let end = self.body_end.saturating_add(8 * self.body[j + 1]);
                put_at(out, p, [1, start, end - start]);
            }
        }
    }
}
