// A pass over all records of a paired index: what some that follow one another add up to, rows in their order.
// An inner crate: its callers prove what its functions require.
#![tactic(auto)]

pub mod totals;

// What each number of up to 256 records adds up to: strides and spans.
#[derive(Drop)]
pub struct RunningSums {
    pub body: [u64; 257],
    pub span: [u64; 257],
}
