// The tape's steps. `expected` has all three areas as the original left them.
// A call is made on copies of them, which `left` then has; the bytes that it has to leave come next, and then a step that compares.
use crate::areas::{Copies, LEN, Sizes, fill};
use crate::call::agrees;
use crate::tape::Tape;
use loc_leaf::Kind;
use loc_lent::store;

// Where the replay stands, and how many answers there were and how often something differed.
#[derive(Clone, Copy)]
pub struct Replay<'a> {
    tape: Tape<'a>,
    kind: Kind,
    sizes: Sizes,
    expected: [u8; LEN],
    kept: [u8; LEN],
    left: [u8; LEN],
    pub answers: u64,
    pub differ: u64,
}

impl<'a> Replay<'a> {
    fn new(data: &'a [u8]) -> Self {
        Replay {
            tape: Tape::new(data),
            kind: Kind::Paired,
            sizes: Sizes {
                slots: 16,
                rows: 16,
                checkpoints: 16,
            },
            expected: [0; LEN],
            kept: [0; LEN],
            left: [0; LEN],
            answers: 0,
            differ: 0,
        }
    }

    fn count(&mut self, agree: bool) {
        self.differ = self.differ.saturating_add(u64::from(!agree));
    }

    // 1: areas of new sizes, all bytes 0.
    fn start(&mut self) {
        self.kind = match self.tape.byte() {
            0 => Kind::Paired,
            _ => Kind::Single,
        };
        self.sizes = Sizes {
            slots: self.tape.half(),
            rows: self.tape.half(),
            checkpoints: self.tape.half(),
        };
        self.expected = [0; LEN];
    }

    // 2: some bytes: a place, how many, the bytes.
    fn some_bytes(&mut self) {
        let at = self.tape.half();
        let n = usize::from(self.tape.byte());
        store(&mut self.expected, at, self.tape.bytes(n));
    }

    // 3: two bytes in turn: a place, how many in all, the two.
    fn two_bytes(&mut self) {
        let at = self.tape.half();
        let n = self.tape.half();
        let two = [self.tape.byte(), self.tape.byte()];
        fill(&mut self.expected, at, n, &two);
    }

    // 6: the areas that the last call left hold what is expected.
    fn compare(&mut self) {
        let same = self.sizes.same(&self.expected, &self.left);
        self.count(same);
    }

    // 7 to 13: a call.
    fn call(&mut self, code: u8) {
        let mut copies = Copies::of(&self.expected);
        let mut areas = copies.lend(self.sizes);
        let agree = agrees(self.kind, code, &mut self.tape, &mut areas);
        self.left = copies.joined();
        self.answers = self.answers.saturating_add(1);
        self.count(agree);
    }

    fn step(&mut self, code: u8) {
        match code {
            1 => self.start(),
            2 => self.some_bytes(),
            3 => self.two_bytes(),
            4 => {
                let expected = self.expected;
                self.kept = expected;
            }
            5 => {
                let kept = self.kept;
                self.expected = kept;
            }
            6 => self.compare(),
            _ => self.call(code),
        }
    }
}

// Until a 0, or the end of what is on the tape. A step has at least one byte.
pub fn replayed(data: &[u8]) -> Replay<'_> {
    let mut replay = Replay::new(data);
    for _ in 0..data.len() {
        let code = replay.tape.byte();
        if code == 0 {
            break;
        }
        replay.step(code);
    }
    replay
}
