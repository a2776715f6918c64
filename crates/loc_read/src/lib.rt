// Reading: the wanted numbers sorted, their windows walked, their answers staged and copied at the end.
// An inner crate: `range_batch` asks nothing, but functions below it may have a `requires`.
#![tactic(auto)]

pub mod read;
pub mod walk;
pub mod window;
