// The book of document 01 and demand 3: what the calls answer over whole histories of calls and tears (specs/, proofs/).
// There is no code here.
#![tactic(auto)]
