// The rules of a turn: steps, half-made turns, and what a list of step codes plays.
#![tactic(auto)]

mod codes;
mod half_turn;
mod laws;
mod pending;
mod playing;
mod stepped;

pub use codes::StepCode;
pub use half_turn::HalfTurn;
pub use laws::whoever_has_a_turn_has_one_that_changes_the_board;
pub use pending::Pending;
pub use playing::{Played, StepRefused, play};
pub use stepped::{Stepped, after_step};
