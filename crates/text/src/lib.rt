// Texts: their lines, the fields of a line, and numbers.
#![tactic(auto)]

pub mod fields;

pub use fields::{Pieces, lines, number};
