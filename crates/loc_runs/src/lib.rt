// The keys of one window, of sorted keys or of a list in its own order: where they end, and what of the window they ask for.
// This crate is inner: its callers prove what it requires.
#![tactic(auto)]

pub mod runs;

// Keys up to `end` whose numbers lie in one window, and how many of its records they look at.
#[derive(Clone, Copy)]
pub struct Run {
    pub end: usize,
    pub m: usize,
}
