// Listings in histories, the round trip of a listing, printed and read into a fresh index, and loads in an index.
// Definitions and proofs only; the code is in the crates below and above.
#![tactic(auto)]
