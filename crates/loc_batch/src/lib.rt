// A batch's records: their refusals, and the bytes that they stage.
// An inner crate: some functions have a `requires`, which their callers prove.
#![tactic(auto)]

pub mod batch;
pub mod entry;
pub mod staging;

// One record of a batch.
#[derive(Clone, Copy)]
pub struct Record {
    pub start: u64,
    pub len: u64,
    pub span_start: u64,
    pub spans: u32,
}
