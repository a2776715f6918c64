// A listing read back: the six numbers of its lines, their refusals, and the four lists of a batch.
// Any bytes are read. An inner crate: a text is parsed for a count that leaves room for 1,025 numbers more, into lists with room for 1,024 records.
#![tactic(auto)]

pub mod form;
pub mod lines;
pub mod lists;
#[cfg(test)]
mod tests;

use loc_leaf::refusal::Refusal;

// The six numbers of a line.
#[derive(Clone, Copy)]
pub struct Fields {
    pub number: u64,
    pub start: u64,
    pub len: u64,
    pub span_start: u64,
    pub span_len: u64,
    pub spans: u32,
}

// A text that is refused: how many records before that stand in the lists, and by what.
#[derive(Clone, Copy)]
pub struct Refused {
    pub records: usize,
    pub refusal: Refusal,
}
