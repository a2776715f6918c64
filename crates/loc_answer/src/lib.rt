// The words of an answer, put at the places of wanted numbers.
// This crate is inner: its callers prove what it requires.
#![tactic(auto)]

pub mod put;
pub mod words;
