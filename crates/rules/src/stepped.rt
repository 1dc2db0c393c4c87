// What one step makes of a board.
ghost use Rattle.std.specs.Prelude.{◌≡◌, ℕ, ◌≢◌, IfSome, MatchOption};
ghost use Rattle.board.specs.declared.board.Board.{Board as BoardT};
ghost use Rattle.board.specs.Cells.{Moved};
ghost use Rattle.board.specs.Standing.{Supported, Settled};
ghost use Rattle.board.specs.Counts.{Lawful};
ghost use Rattle.rules.specs.Steps.{Step};
ghost use Rattle.rules.specs.Removals.{Tells, RemovesOneAtMost};

use crate::StepCode;
use bits::Square;
use board::{Board, Piece};

/// A board after a step, and the piece that the step removed from a trap.
#[derive(Clone, Copy)]
pub struct Stepped {
    pub board: Board,
    pub removed: Option<(Square, Piece)>,
}

/// A piece on a trap with no friend next to it, and its square.
fn unsupported_piece(board: Board) -> Option<(Square, Piece)>
    ensures { Tells board result }
{
    let square = board.unsupported().lowest()?;
    Some((square, board.at(square)?))
}

/// The board after the piece of one square went to another, with what is then unsupported taken away.
pub(crate) fn settle_after(board: Board, from: Square, to: Square) -> Stepped
    ensures { from.number ≢ to.number → (m : BoardT) × Moved board from.number to.number m × Settled m result.board × Tells m result.removed }
{
    let moved = board.moved(from, to);
    Stepped {
        board: moved.without(moved.unsupported()),
        removed: unsupported_piece(moved),
    }
}

/// The board after the code's step, if a piece can step so.
pub fn after_step(board: Board, code: StepCode) -> Option<Stepped>
    ensures exact { MatchOption result ((b : BoardT) → Step board code.number b → ⊥) (λ x. (t : Step board code.number x.board) × Tells t.moved x.removed) }
    ensures a_step_removes_at_most_one_piece { Supported board → RemovesOneAtMost board code.number }
    ensures a_position_stays_one { IfSome result (λ x. Lawful board → Lawful x.board) }
{
    let from = code.square();
    let to = code.target()?;
    board.at(from)?;
    if board.at(to).is_some() {
        return None;
    }
    Some(settle_after(board, from, to))
}
