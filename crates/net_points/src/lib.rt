#![tactic(auto)]
// The points that a corner has of its own, out of its net's 123 numbers. No mesh is needed for that.
pub mod writing;
