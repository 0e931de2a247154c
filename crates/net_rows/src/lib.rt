#![tactic(auto)]
// The control points of a quad-net on one axis: its four sides, the rows along them, and the 41 points into a lane. They are made by the formulas of
// crate faces from rows of numbers, with no mesh and no table.
pub mod points;
pub mod rows;
pub mod sides;
