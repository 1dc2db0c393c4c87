// What a task is answered.
ghost use Rattle.std.specs.Prelude.{◌≡◌, Some, IfOk};
ghost use Rattle.turn.specs.declared.answer.Complaint.TheVariants.{NoBoard, NoStep};
ghost use Rattle.turn.specs.Judging.{Judged, Answered};
ghost use Rattle.turn.specs.Printing.{outcome_text, complaint_text};

use crate::task::Task;
use board::{Board, Refusal};
use position::Position;
use rules::{Played, StepRefused, play};
use std::alloc::{AllocError, Global};
use std::fmt;

/// What the codes of a task come to.
#[derive(Clone, Copy)]
pub enum Outcome {
    /// There are no codes.
    Start(Board),
    /// The codes are a turn, which ends on the board.
    Turn(Board),
    /// The codes leave a push half done.
    Half(Board),
}

/// Why a line has no outcome.
#[derive(Clone, Copy)]
pub enum Complaint {
    /// The line says no task.
    Unreadable,
    /// The board is refused.
    NoBoard(Refusal),
    /// A code is refused.
    NoStep(StepRefused),
}

impl From<Refusal> for Complaint {
    ghost from_gives = { λ refusal complaint. complaint ≡ NoBoard refusal };

    fn from(refusal: Refusal) -> Complaint {
        Complaint::NoBoard(refusal)
    }
}

impl From<StepRefused> for Complaint {
    ghost from_gives = { λ step complaint. complaint ≡ NoStep step };

    fn from(step: StepRefused) -> Complaint {
        Complaint::NoStep(step)
    }
}

/// The answer to a line, by its task.
pub fn to_line(heap: Global, line: &[u8]) -> Result<Result<Outcome, Complaint>, AllocError>
    ensures { IfOk result (λ answer. Answered line.now answer) }
{
    let Some(task) = Task::read(heap, line)? else {
        return Ok(Err(Complaint::Unreadable));
    };
    Ok(to_task(&task))
}

fn to_task(task: &Task<'_>) -> Result<Outcome, Complaint>
    ensures { Judged task.now.letters.now task.now.side task.now.codes.items result }
{
    let position = Position::from_letters(task.letters, task.side)?;
    Ok(match play(position, task.codes.as_slice())? {
        Played::Start => Outcome::Start(position.board),
        Played::Whole(board) => Outcome::Turn(board),
        Played::Half(board) => Outcome::Half(board),
    })
}

impl fmt::Display for Outcome {
    ghost output = { λ outcome. Some (outcome_text outcome) };

    fn fmt<W: fmt::Write>(&self, f: &mut fmt::Formatter<W>) -> fmt::Result {
        match *self {
            Outcome::Start(board) => write!(f, "start {board}"),
            Outcome::Turn(board) => write!(f, "turn {board}"),
            Outcome::Half(board) => write!(f, "half {board}"),
        }
    }
}

impl fmt::Display for Complaint {
    ghost output = { λ complaint. Some (complaint_text complaint) };

    fn fmt<W: fmt::Write>(&self, f: &mut fmt::Formatter<W>) -> fmt::Result {
        match *self {
            Complaint::Unreadable => f.write_str("unreadable"),
            Complaint::NoBoard(why) => write!(f, "no {}", why.number()),
            Complaint::NoStep(refused) => {
                let place = refused.at.saturating_add(1);
                write!(f, "no {} at {place}", refused.why.number())
            }
        }
    }
}
