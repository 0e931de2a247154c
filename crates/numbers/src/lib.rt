#![tactic(auto)]
// The numbers of the construction: the rounding r of every stage, and the cosine table.
pub mod cosines;
pub mod rounding;
