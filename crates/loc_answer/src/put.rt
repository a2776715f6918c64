// The answers of a run of wanted numbers, all of one window.
// Keys have a number's place in their lowest ten bits.
ghost use Rattle.std.specs.Prelude.{◌*◌, ◌≤◌, length};
ghost use Rattle.loc_calls.specs.Table.{word_width};
ghost use Rattle.loc_order.specs.Keys.{places_from};
ghost use Rattle.loc_answer.specs.Words.{AllSome, RunSafe, RunPut, SamePast};

use crate::words::WindowSums;
use loc_leaf::Kind;
use loc_leaf::delta_loc::{LOC_WINDOW, loc_within};

impl<'a> WindowSums<'a> {
    // The answers of keys `from` to `end`, whose records lie in this window.
    pub fn put_run(
        self,
        kind: Kind,
        wanted: &[u64],
        keys: &[u64],
        from: usize,
        end: usize,
        out: &mut [u64],
    )
        requires { RunSafe kind wanted.now keys.now from end self.body.now self.span.now out.old }
        ensures { RunPut kind wanted.now keys.now from end self.entry.body_end self.entry.span_end self.entry.body.now self.entry.span.now out.old out.new }
    {
        for t in from..end {
            let p = (keys[t] % 1024) as usize;
            let j = loc_within(wanted[p]);
            self.put_words(kind, j, p, out);
        }
    }

    // The answers of all wanted numbers, whose records lie in this window.
    pub fn put_window(self, kind: Kind, wanted: &[u64], out: &mut [u64])
        requires { (length wanted.now ≤ 1024) × AllSome wanted.now × RunSafe kind wanted.now (places_from 0 (length wanted.now)) 0 (length wanted.now) self.body.now self.span.now out.old }
        ensures { RunPut kind wanted.now (places_from 0 (length wanted.now)) 0 (length wanted.now) self.entry.body_end self.entry.span_end self.entry.body.now self.entry.span.now out.old out.new
            × SamePast (word_width kind * length wanted.now) out.old out.new }
    {
        for (p, &id) in wanted.iter().enumerate() {
            let j = ((id - 1) % LOC_WINDOW) as usize;
            self.put_words(kind, j, p, out);
        }
    }
}
