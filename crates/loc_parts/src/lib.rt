// Composites after their parts: the records that a record needs, by pairs of composite and component.
// An inner crate: `parts` asks nothing, but functions below it have a `requires`.
#![tactic(auto)]

pub mod call;
pub mod check;
pub mod pass;

// The entries of two lists at one place are a pair.
#[derive(Clone, Copy)]
pub struct Pairs<'a> {
    pub composites: &'a [u64],
    pub components: &'a [u64],
}
