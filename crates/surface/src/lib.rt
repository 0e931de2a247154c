#![tactic(auto)]
// Loop's surface over an accepted mesh, as crate paper defines it: the corners' laws in specs/; sizes and what holds across a border in
// proofs/. There is no code but one number.

// The numbers in a row of the table of refined points, which has a row for each corner.
pub const POINT_ROW: usize = 4;
