// Two programs, one after the other: what face_load prints goes into face_import.
// Definitions and proofs alone; there is no code here.
#![tactic(auto)]
