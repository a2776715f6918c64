// All three areas in one array, as the tape has them: slots at 0, then rows and checkpoints.
// A call is made on copies, of which it is lent the first part.
use loc_calls::AreasMut;
use loc_lent::{copied, first, first_mut, rest, store};

const ROWS: usize = 4224;

const CHECKPOINTS: usize = 6272;

pub const LEN: usize = 6400;

// The sizes of the areas.
#[derive(Clone, Copy)]
pub struct Sizes {
    pub slots: usize,
    pub rows: usize,
    pub checkpoints: usize,
}

impl Sizes {
    // Whether the areas in two arrays hold the same. A size may run on into the next area: the program's behaviour on any input is kept.
    pub fn same(&self, one: &[u8; LEN], other: &[u8; LEN]) -> bool {
        let areas = [
            (0, self.slots),
            (ROWS, self.rows),
            (CHECKPOINTS, self.checkpoints),
        ];
        areas.iter().all(|(at, n)| first(rest(one, *at), *n) == first(rest(other, *at), *n))
    }
}

// An area's bytes with all that follow them in the array, and then 0: the program's behaviour on any input is kept.
#[derive(Drop)]
struct Area([u8; LEN]);

impl Area {
    fn lend(&mut self, size: usize) -> &mut [u8] {
        let bytes = &mut self.0[..];
        first_mut(bytes, size)
    }
}

#[derive(Drop)]
pub struct Copies {
    slots: Area,
    rows: Area,
    checkpoints: Area,
}

impl Copies {
    pub fn of(all: &[u8; LEN]) -> Self {
        Copies {
            slots: Area(*all),
            rows: Area(copied(all, ROWS)),
            checkpoints: Area(copied(all, CHECKPOINTS)),
        }
    }

    pub fn lend(&mut self, sizes: Sizes) -> AreasMut<'_> {
        AreasMut {
            slots: self.slots.lend(sizes.slots),
            rows: self.rows.lend(sizes.rows),
            checkpoints: self.checkpoints.lend(sizes.checkpoints),
        }
    }

    // In one array again, each up to where the next begins.
    pub fn joined(&self) -> [u8; LEN] {
        let mut all = self.slots.0;
        store(&mut all, ROWS, &self.rows.0);
        store(&mut all, CHECKPOINTS, &self.checkpoints.0);
        all
    }
}

// Two bytes in turn to a place, n in all.
pub fn fill(all: &mut [u8; LEN], at: usize, n: usize, two: &[u8; 2]) {
    for (to, byte) in all.iter_mut().skip(at).take(n).zip(two.iter().cycle()) {
        *to = *byte;
    }
}
