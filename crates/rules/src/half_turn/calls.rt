// The calls on a half-made turn.
ghost use Rattle.std.specs.Prelude.{◌≡◌};
ghost use Rattle.rules.specs.HalfTurns.{half_of, start, StepsPush, StepsAfter, Takes};
ghost use Rattle.rules.specs.Checks.{step_checks, begin_checks, finish_checks, read_checks};
ghost use Rattle.rules.specs.Answers.{Answers, GoesOn, Steps};

use super::HalfTurn;
use super::checks::CallChecks;
use crate::{Pending, StepCode};
use board::{Board, Refusal, Side};
use position::Position;

impl HalfTurn {
    /// The turn's start.
    pub fn start(position: Position) -> HalfTurn
        ensures side { result.side ≡ position.side }
        ensures begins { half_of result ≡ start position.board }
    {
        HalfTurn {
            board: position.board,
            side: position.side,
            steps: 0,
            pending: Pending::Nothing,
        }
    }

    pub fn board(self) -> Board
        ensures { result ≡ self.board }
    {
        self.board
    }

    /// The side whose turn it is.
    pub fn side(self) -> Side
        ensures { result ≡ self.side }
    {
        self.side
    }

    /// What the last step left open.
    pub fn pending(self) -> Pending
        ensures { result ≡ self.pending }
    {
        self.pending
    }

    /// How many steps are made.
    pub fn steps(self) -> u8
        ensures { result ≡ self.steps }
    {
        self.steps
    }

    /// A plain step, or the second half of a pull.
    pub fn step(self, code: StepCode) -> Result<HalfTurn, Refusal>
        ensures { Answers (step_checks self.side (half_of self) code.number) (GoesOn Steps self code.number) result }
    {
        let call = CallChecks {
            steps_made: self.has_made(4),
            no_push_or_pull: self.is_foreign(code),
            unfinished_push: self.is_push_open(),
        };
        let asked = self.checked(code, call)?;
        let pending = if self.ends_pull(code) {
            Pending::Nothing
        } else {
            Pending::Pull {
                left: asked.from,
                puller: asked.piece.kind,
            }
        };
        Ok(self.after(asked, pending))
    }

    /// The first half of a push.
    pub fn begin_push(self, code: StepCode) -> Result<HalfTurn, Refusal>
        ensures { Answers (begin_checks self.side (half_of self) code.number) (GoesOn StepsPush self code.number) result }
    {
        let open = self.is_push_open();
        let begins = self.begins_push(code);
        let call = CallChecks {
            steps_made: self.has_made(3),
            no_push_or_pull: !open && !begins,
            unfinished_push: open,
        };
        let asked = self.checked(code, call)?;
        let pending = Pending::Push {
            left: asked.from,
            pushed: asked.piece.kind,
        };
        Ok(self.after(asked, pending))
    }

    /// The second half of a push.
    pub fn finish_push(self, code: StepCode) -> Result<HalfTurn, Refusal>
        ensures { Answers (finish_checks self.side (half_of self) code.number) (GoesOn StepsAfter self code.number) result }
    {
        let call = CallChecks {
            steps_made: false,
            no_push_or_pull: false,
            unfinished_push: !self.finishes_push(code),
        };
        let asked = self.checked(code, call)?;
        Ok(self.after(asked, Pending::Nothing))
    }

    /// A step as a line of a record has it: with a push open it finishes that; an enemy step that can end a pull is
    /// that, and any other begins a push.
    pub fn read(self, code: StepCode) -> Result<HalfTurn, Refusal>
        ensures { Answers (read_checks self.side (half_of self) code.number) (GoesOn Takes self code.number) result }
    {
        if self.is_push_open() {
            self.finish_push(code)
        } else if self.is_foreign(code) {
            self.begin_push(code)
        } else {
            self.step(code)
        }
    }
}
