// Audit: whether an index is sound, for both kinds.
// An inner crate: its call asks nothing, but functions below it may have a `requires`.
#![tactic(auto)]

pub mod audit;
pub mod pass;

// Where the records so far end, body and span, both from 16 on.
#[derive(Clone, Copy)]
pub struct Ends {
    pub body: u64,
    pub span: u64,
}
