// A load that others can regenerate: the records that a seed draws, and their listing.
// The seed and the number of records come as text, any bytes; every public function is total.
#![tactic(auto)]

pub mod input;
pub mod listing;
pub mod xorshift;

// The seed and the number of records that are asked for.
#[derive(Clone, Copy)]
pub struct Request {
    pub seed: u64,
    pub records: u64,
}
