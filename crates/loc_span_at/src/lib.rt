// Whose crossing is at an address: quarters of windows are passed by their totals, and the one that holds the address is halved.
// An inner crate: `span_at` asks nothing, but functions below it have a `requires`.
#![tactic(auto)]

pub mod find;
pub mod windows;

// Records among which a span of a window is looked for: m that follow `base`, with `row` rows and `before` of the window's spans passed.
#[derive(Clone, Copy)]
pub struct Part {
    pub base: u64,
    pub m: usize,
    pub row: usize,
    pub before: u64,
}

// A record, and the index of a span in it.
#[derive(Clone, Copy)]
pub struct Span {
    pub record: u64,
    pub index: u64,
}
