// The checks of a step, in order, and the step itself.
ghost use Rattle.std.specs.Prelude.{◌≡◌, ℕ, ◌+◌, ◌≤◌, true, take, Decides};
ghost use Rattle.board.specs.declared.pieces.Kind.TheVariants.{Rabbit};
ghost use Rattle.board.specs.Standing.{Frozen};
ghost use Rattle.rules.specs.Codes.{direction, back};
ghost use Rattle.rules.specs.Room.{room};
ghost use Rattle.rules.specs.Steps.{Step};
ghost use Rattle.rules.specs.Asked.{AsksFor};
ghost use Rattle.rules.specs.Checks.{turn_checks};
ghost use Rattle.rules.specs.Answers.{Answers};

use super::HalfTurn;
use crate::codes::backward;
use crate::stepped::settle_after;
use crate::{Pending, StepCode};
use bits::Square;
use board::{Kind, Piece, Refusal};

/// What a code asks for: the piece, where it stands and where it goes.
#[derive(Clone, Copy)]
pub(super) struct Asked {
    pub from: Square,
    pub to: Square,
    pub piece: Piece,
}

/// Which of the checks hit whose conditions differ from call to call.
#[derive(Clone, Copy)]
pub(super) struct CallChecks {
    pub steps_made: bool,
    pub no_push_or_pull: bool,
    pub unfinished_push: bool,
}

impl HalfTurn {
    /// What the code asks for, or the first hit of the checks up to that of the target.
    fn asked(self, code: StepCode, steps_made: bool) -> Result<Asked, Refusal>
        ensures { Answers (take 4 (turn_checks self.side self.board code.number (steps_made ≡ true) ⊥ ⊥)) (AsksFor self.board code.number) result }
    {
        let from = code.square();
        let to = code.target().ok_or(Refusal::OffBoard)?;
        let piece = self.board.at(from).ok_or(Refusal::EmptySquare)?;
        if steps_made {
            return Err(Refusal::StepsMade);
        }
        if self.board.at(to).is_some() {
            return Err(Refusal::Occupied);
        }
        Ok(Asked { from, to, piece })
    }

    /// What the code asks for, or the first check that hits.
    pub(super) fn checked(self, code: StepCode, call: CallChecks) -> Result<Asked, Refusal>
        ensures { Answers (turn_checks self.side self.board code.number (call.steps_made ≡ true) (call.no_push_or_pull ≡ true) (call.unfinished_push ≡ true)) (AsksFor self.board code.number) result }
    {
        let asked = self.asked(code, call.steps_made)?;
        if call.no_push_or_pull {
            return Err(Refusal::NoPushOrPull);
        }
        if self.is_stuck(asked.from, asked.piece) {
            return Err(Refusal::Frozen);
        }
        if self.goes_backward(code, asked.piece) {
            return Err(Refusal::RabbitBackward);
        }
        if call.unfinished_push {
            return Err(Refusal::UnfinishedPush);
        }
        Ok(asked)
    }

    /// Whether the piece is own and frozen.
    fn is_stuck(self, square: Square, piece: Piece) -> bool
        ensures { Decides result ((piece.side ≡ self.side) × Frozen self.board square.number) }
    {
        piece.side == self.side && self.board.is_frozen(square)
    }

    /// Whether the piece is an own rabbit and the code's step goes backward.
    fn goes_backward(self, code: StepCode, piece: Piece) -> bool
        ensures { Decides result ((piece.side ≡ self.side) × (piece.kind ≡ Rabbit) × (direction code.number ≡ back self.side)) }
    {
        piece.side == self.side
            && piece.kind == Kind::Rabbit
            && code.direction() == backward(self.side)
    }

    /// The half-made turn after the step, with what the step leaves open.
    pub(super) fn after(self, asked: Asked, pending: Pending) -> HalfTurn
        requires { self.steps + 1 ≤ room pending }
        ensures same { (result.side ≡ self.side) × (result.steps ≡ self.steps + 1) × (result.pending ≡ pending) }
        ensures step { (c : ℕ) → AsksFor self.board c asked → Step self.board c result.board }
    {
        HalfTurn {
            board: settle_after(self.board, asked.from, asked.to).board,
            side: self.side,
            steps: self.steps + 1,
            pending,
        }
    }
}
