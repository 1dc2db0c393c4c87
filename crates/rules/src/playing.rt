// What a list of step codes plays.
ghost use Rattle.std.specs.Prelude.{◌≡◌};
ghost use Rattle.board.specs.declared.board.Board.{Board as BoardT};
ghost use Rattle.board.specs.Counts.{Lawful};
ghost use Rattle.rules.specs.declared.playing.Played.TheVariants.{Whole};
ghost use Rattle.rules.specs.Actions.{Turn};
ghost use Rattle.rules.specs.Played.{Plays};

use crate::{HalfTurn, StepCode};
use board::{Board, Refusal};
use position::Position;

/// What came of a list of codes.
#[derive(Clone, Copy)]
pub enum Played {
    /// There are no codes.
    Start,
    /// The codes are a turn, which ends on the board.
    Whole(Board),
    /// The codes leave a push half done.
    Half(Board),
}

/// The first code that is refused: its place, from 0, and why.
#[derive(Clone, Copy)]
pub struct StepRefused {
    pub at: usize,
    pub why: Refusal,
}

/// Plays the codes from the position.
pub fn play(position: Position, codes: &[u8]) -> Result<Played, StepRefused>
    ensures exact { Plays position.side position.board codes.now result }
    ensures turns_are_what_is_read_whole { (b : BoardT) → (Turn position.side position.board codes.now b → result ≡ Ok (Whole b)) × (result ≡ Ok (Whole b) → Turn position.side position.board codes.now b) }
    ensures a_position_stays_one { Lawful position.board → (b : BoardT) → result ≡ Ok (Whole b) → Lawful b }
{
    let mut turn = HalfTurn::start(position);
    for (at, code) in codes.iter().enumerate() {
        turn = turn
            .read(StepCode::from(*code))
            .map_err(|why| StepRefused { at, why })?;
    }
    let board = turn.board();
    if codes.is_empty() {
        Ok(Played::Start)
    } else if turn.is_push_open() {
        Ok(Played::Half(board))
    } else {
        Ok(Played::Whole(board))
    }
}
