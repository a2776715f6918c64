// The premises of demand 3: histories that meet them all, and for each but one a history that breaks it (specs/, proofs/).
// There is no code here.
#![tactic(auto)]
