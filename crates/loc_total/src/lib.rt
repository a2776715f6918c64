// What the last records of a list add up to: all bytes of their slots by words, then rows in place of bytes.
// An inner crate: its callers prove what its functions require.
#![tactic(auto)]

use loc_leaf::Kind;

pub mod rows;
pub mod slots;
pub mod window;
pub mod words;

// The slots of the m records that follow `base` others, and all rows.
#[derive(Clone, Copy)]
pub struct Part<'a> {
    pub kind: Kind,
    pub bytes: &'a [u8],
    pub m: usize,
    pub rows: &'a [u8],
    pub row_count: usize,
    pub base: u64,
}

// What some records add up to, and how many of them lack their row.
#[derive(Clone, Copy)]
pub struct Total {
    pub strides: u64,
    pub spans: u64,
    pub lacking: u64,
}
