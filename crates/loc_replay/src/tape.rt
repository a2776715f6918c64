// The tape, read from its front on. What lies past its end reads as 0.
// Numbers are little-endian.
use loc_leaf::file::{byte_at, u16_at, u32_at, u64_at};
use loc_lent::{first, rest};

// What is left of it.
#[derive(Clone, Copy)]
pub struct Tape<'a> {
    left: &'a [u8],
}

impl<'a> Tape<'a> {
    pub fn new(data: &'a [u8]) -> Self {
        Tape { left: data }
    }

    pub fn bytes(&mut self, n: usize) -> &'a [u8] {
        let left = self.left;
        self.left = rest(left, n);
        first(left, n)
    }

    pub fn byte(&mut self) -> u8 {
        byte_at(self.bytes(1), 0)
    }

    pub fn half(&mut self) -> usize {
        usize::from(u16_at(self.bytes(2), 0))
    }

    pub fn count(&mut self) -> u32 {
        u32_at(self.bytes(4), 0)
    }

    pub fn word(&mut self) -> u64 {
        u64_at(self.bytes(8), 0)
    }

    // At how many places a call stores; None where the call is whole, which is told as 255.
    pub fn places(&mut self) -> Option<u64> {
        match self.byte() {
            255 => None,
            n => Some(u64::from(n)),
        }
    }

    // An answer: its number and its value.
    pub fn answer(&mut self) -> (u64, u64) {
        let number = self.byte();
        (u64::from(number), self.word())
    }

    pub fn words(&mut self, list: &mut [u64]) {
        for word in list.iter_mut() {
            *word = self.word();
        }
    }
}
