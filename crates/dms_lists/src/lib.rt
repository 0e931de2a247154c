#![tactic(auto)]
// The header of a DMS file with its checks, and the lists after it, read into lent spaces. Crate dms decides on a file as a whole.
pub mod header;
pub mod lists;
