#![tactic(auto)]
// The theorems for the owner: paper/specs/Claims.antt states them, and proofs/Claims.antt has the value of all of them. There is no code.
