#![tactic(auto)]
// L10: how far the points that building writes are from the true surface, which is the same construction without rounding. Crate paper
// states it, proofs/ has the theorem. There is no code.
