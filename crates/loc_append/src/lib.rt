// Append: what it decides before it stores, its four places, and the call.
// An inner crate: some functions have a `requires`, which their callers prove.
#![tactic(auto)]

pub mod append;
pub mod plan;
pub mod run;

use loc_store::Lengths;

// What an append after `base` records is to store: bytes past the old ends, then the new ends.
#[derive(Clone, Copy)]
pub struct Stage {
    pub base: u64,
    pub old: Lengths,
    pub new: Lengths,
}
