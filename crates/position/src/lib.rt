// Positions, and positions as keys of stores.
#![tactic(auto)]

mod key;
mod position;

pub use position::Position;
