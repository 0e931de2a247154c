#![tactic(auto)]
// Streams: bytes read into a lent buffer, and bytes written as a whole. And the program's arguments.
pub mod arguments;
pub mod error;
pub mod input;
pub mod output;
pub mod text;
