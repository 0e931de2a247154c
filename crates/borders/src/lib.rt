#![tactic(auto)]
// Demand 3: what holds across the borders of an accepted mesh; and L1: every quad-net that building writes passes 18 and 19. Crate paper states both,
// proofs/ has the theorems. There is no code.
