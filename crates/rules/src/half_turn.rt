// A turn in the making.
ghost use Rattle.std.specs.Prelude.{◌≤◌};
ghost use Rattle.rules.specs.Room.{room};

use crate::Pending;
use board::{Board, Side};

mod calls;
mod checks;
mod pushes_and_pulls;

#[derive(Clone, Copy)]
pub struct HalfTurn {
    board: Board,
    side: Side,
    steps: u8,
    pending: Pending,
    ghost few: { steps ≤ room pending },
}
