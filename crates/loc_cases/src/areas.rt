// Three areas in one array, so that a case can keep a copy: slots from 0 on, rows from 2,080, checkpoints from 2,144.
// Bytes 0 to 7 of an area, which no call reads or writes, hold its size. A byte that nothing stores is 9.
use crate::script::Numbers;
use loc_calls::AreasMut;
use loc_leaf::file::{logical_len, put_le, u64_at};
use loc_lent::{copied, first, first_mut, rest, store};

const LEN: usize = 2192;

pub const SLOTS: usize = 0;

pub const ROWS: usize = 2080;

pub const CHECKPOINTS: usize = 2144;

// An area as a call is lent it: as many of these bytes as its size says.
// All bytes from its first on are copied, those of the next area too: the program's behaviour on any input is kept.
#[derive(Drop)]
struct Area([u8; ROWS]);

impl Area {
    fn size(&self) -> usize {
        u64_at(&self.0, 0) as usize
    }

    fn lent(&self) -> &[u8] {
        first(&self.0, self.size())
    }

    fn lend(&mut self) -> &mut [u8] {
        let size = self.size();
        let bytes = &mut self.0[..];
        first_mut(bytes, size)
    }
}

// Copies of the three, to make a call on.
#[derive(Drop)]
pub struct Copies {
    slots: Area,
    rows: Area,
    checkpoints: Area,
}

impl Copies {
    pub fn lend(&mut self) -> AreasMut<'_> {
        AreasMut {
            slots: self.slots.lend(),
            rows: self.rows.lend(),
            checkpoints: self.checkpoints.lend(),
        }
    }
}

#[derive(Clone, Copy, PartialEq, Eq)]
pub struct OwnAreas([u8; LEN]);

impl OwnAreas {
    // As a section begins: larger than their bytes.
    pub fn new() -> Self {
        OwnAreas([9; LEN])
    }

    // Of the sizes that the first three numbers say, and publishing nothing.
    pub fn sized(numbers: &Numbers) -> Self {
        let mut areas = OwnAreas::new();
        for (i, area) in [SLOTS, ROWS, CHECKPOINTS].iter().enumerate() {
            put_le(&mut areas.0, *area, 8, numbers.at(i));
            put_le(&mut areas.0, *area + 8, 8, 16);
        }
        areas
    }

    // Stores the published length that the first number says, and the others as bytes from 16 on, into the next area too.
    pub fn fill(&mut self, area: usize, numbers: &Numbers) {
        put_le(&mut self.0, area.saturating_add(8), 8, numbers.at(0));
        for (to, n) in self
            .0
            .iter_mut()
            .skip(area.saturating_add(16))
            .zip(rest(numbers.held(), 1))
        {
            *to = (*n & 0xff) as u8;
        }
    }

    fn area(&self, at: usize) -> Area {
        Area(copied(&self.0, at))
    }

    pub fn copies(&self) -> Copies {
        Copies {
            slots: self.area(SLOTS),
            rows: self.area(ROWS),
            checkpoints: self.area(CHECKPOINTS),
        }
    }

    // What a call left of them. A byte that it stored past an area's own is lost.
    pub fn put_back(&mut self, copies: &Copies) {
        store(&mut self.0, SLOTS, &copies.slots.0);
        store(&mut self.0, ROWS, first(&copies.rows.0, CHECKPOINTS - ROWS));
        store(
            &mut self.0,
            CHECKPOINTS,
            first(&copies.checkpoints.0, LEN - CHECKPOINTS),
        );
    }

    // The published length as it counts.
    pub fn counted(&self, area: usize) -> u64 {
        logical_len(self.area(area).lent()) as u64
    }
}
