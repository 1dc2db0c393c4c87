// A position: a board and the side to move.
ghost use Rattle.std.specs.Prelude.{◌≡◌, ◌<◌, IfOk, Decides, MatchResult};
ghost use Rattle.board.specs.Pieces.{side_number, full};
ghost use Rattle.board.specs.Cells.{SameSquares};
ghost use Rattle.board.specs.Counts.{count_of, Lawful};
ghost use Rattle.board.specs.Refusals.{refusal_number, NoneHits, FirstHit};
ghost use Rattle.board.specs.Reading.{Shows, position_checks};
ghost use Rattle.position.specs.Equality.{same_position};
ghost use Rattle.std.specs.Cmp.Rules.{comparing};
ghost use Rattle.std.proofs.Common.{rules};

use board::{Board, Kind, Refusal, Side};

#[derive(Clone, Copy)]
pub struct Position {
    pub board: Board,
    pub side: Side,
}

/// Whether a side has more of some kind than the full set.
fn exceeds_full_set(board: Board) -> bool
    ensures { Decides result ((side : Side) × (kind : Kind) × (full kind < count_of board side kind)) }
{
    [Side::Gold, Side::Silver]
        .iter()
        .any(|side| board.exceeds_full_set(*side))
}

impl Position {
    /// The position that 64 letters show, in the order of the squares, with the side of that number to move.
    pub fn from_letters(letters: &[u8], side: u8) -> Result<Position, Refusal>
        ensures exact { MatchResult result (λ p. NoneHits (position_checks letters.now side) × Shows letters.now p.board × (side_number p.side ≡ side)) (λ e. FirstHit (position_checks letters.now side) (refusal_number e)) }
        ensures lawful { IfOk result (λ p. Lawful p.board) }
    {
        if letters.len() != 64 {
            return Err(Refusal::Length);
        }
        let side = Side::try_from(side)?;
        let board = Board::from_letters(letters)?;
        if exceeds_full_set(board) {
            return Err(Refusal::FullSet);
        }
        if !board.unsupported().is_empty() {
            return Err(Refusal::Unsupported);
        }
        Ok(Position { board, side })
    }
}

impl PartialEq for Position {
    ghost eq = { same_position };

    ghost laws = { Prim.search (comparing, rules) };

    // By hand, since a derived == could not promise what it says of the squares.
    fn eq(&self, other: &Position) -> bool
        ensures value { result ≡ same_position self.now other.now }
        ensures same { Decides result (self.now ≡ other.now) }
        ensures agreement { Decides result (SameSquares self.now.board other.now.board × (self.now.side ≡ other.now.side)) }
    {
        self.side == other.side && self.board == other.board
    }
}

impl Eq for Position {
    ghost laws = { Prim.search (comparing, rules) };
}
