// Squares, directions and planes of 64 squares.
#![tactic(auto)]

mod direction;
mod plane;
mod square;

pub use direction::Direction;
pub use plane::{Plane, Squares};
pub use square::Square;
