// Where by a reading of its last record the list ends, and whether a batch carries on from there.
// An inner crate: its callers prove what its functions require.
#![tactic(auto)]

pub mod start;
