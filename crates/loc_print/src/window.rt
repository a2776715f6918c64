// One window of a listing: its records are read, and their lines put.
// Where the reading is refused nothing is put.
ghost use Rattle.std.specs.Prelude.{◌≡◌, ◌+◌, ◌*◌, ◌≤◌, ◌<◌, ◌^◌, length, IfOk, OnErr};
ghost use Rattle.loc_leaf.specs.Answers.{refusal_of};
ghost use Rattle.loc_calls.specs.Lent.{seen};
ghost use Rattle.loc_listing.specs.Listing.{lines_after};
ghost use Rattle.loc_listing.specs.Text.{Put};
ghost use Rattle.loc_print.specs.Printed.{window_refusal};

use loc_calls::Areas;
use loc_index::range_batch;
use loc_leaf::Kind;
use loc_leaf::refusal::Refusal;
use loc_listing::window_text;

// Room for the numbers of a window's records, and for their words.
#[derive(Drop)]
pub struct Window {
    wanted: [u64; 1024],
    answers: [u64; 6144],
}

impl Window {
    pub fn new() -> Self {
        Window {
            wanted: [0; 1024],
            answers: [0; 6144],
        }
    }

    // The lines of the n records that follow record `done`; the answer is how many bytes they have.
    pub fn put(&mut self, a: Areas, done: u64, n: usize, out: &mut [u8]) -> Result<usize, Refusal>
        requires { (n ≤ 1024) × (126 * n ≤ length out.old) × (done + 1 + n < 2 ^ 64) }
        ensures number { refusal_of result ≡ window_refusal (seen a.entry) done n }
        ensures lines { IfOk result (λ k. Put out.old 0 (lines_after (seen a.entry) done n) out.new k × (k ≤ 126 * n)) }
        ensures kept { OnErr result (out.new ≡ out.old) }
    {
        for i in 0..n {
            self.wanted[i] = done + 1 + i as u64;
        }
        range_batch(Kind::Paired, a, &self.wanted[..n], &mut self.answers)?;
        Ok(window_text(done + 1, &self.answers, n, out))
    }
}
