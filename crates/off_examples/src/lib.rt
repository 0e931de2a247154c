#![tactic(auto)]
// Examples of OFF texts, computed from the definitions (proofs/Examples.antt), and the theorems about them. There is no code.
