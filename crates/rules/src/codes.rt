// Step codes: 4 * square + direction, so every byte is one.
ghost use Rattle.std.specs.Prelude.{◌≡◌, ℕ, Decides, MatchOption};
ghost use Rattle.rules.specs.Codes.{square, direction, Goes, back};

use bits::{Direction, Square};
use board::Side;

/// A step of one piece: the square that it stands on, and the direction that it steps in.
#[derive(Clone, Copy, PartialEq, Eq)]
pub struct StepCode {
    number: u8,
}

impl From<u8> for StepCode {
    ghost from_gives = { λ number code. code.number ≡ number };

    fn from(number: u8) -> StepCode {
        StepCode { number }
    }
}

impl From<StepCode> for u8 {
    ghost from_gives = { λ code number. number ≡ code.number };

    fn from(code: StepCode) -> u8 {
        code.number
    }
}

impl StepCode {
    /// The square that the piece stands on.
    pub fn square(self) -> Square
        ensures { result.number ≡ square self.number }
    {
        Square::new(self.number / 4).unwrap()
    }

    /// The direction that it steps in.
    pub fn direction(self) -> Direction
        ensures { result ≡ direction self.number }
    {
        match self.number % 4 {
            0 => Direction::North,
            1 => Direction::East,
            2 => Direction::South,
            _ => Direction::West,
        }
    }

    /// The square that it goes to, if it doesn't leave the board.
    pub fn target(self) -> Option<Square>
        ensures { MatchOption result ((t : ℕ) → Goes self.number t → ⊥) (λ to. Goes self.number to.number) }
    {
        self.square().toward(self.direction())
    }

    /// Whether it goes to the square.
    pub(crate) fn goes_to(self, square: Square) -> bool
        ensures { Decides result (Goes self.number square.number) }
    {
        self.target() == Some(square)
    }
}

/// The direction in which a side's rabbits never step.
pub(crate) fn backward(side: Side) -> Direction
    ensures { result ≡ back side }
{
    match side {
        Side::Gold => Direction::South,
        Side::Silver => Direction::North,
    }
}
