// What the listing programs print, put into a buffer that the caller lends.
// Where a buffer is too short nothing is put, and the answer is 0. The programs read and write bytes.
#![tactic(auto)]

pub mod calls;
pub mod listing;
mod window;
