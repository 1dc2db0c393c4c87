// Why a call or a line is refused. Checks run in the order of their numbers.
ghost use Rattle.std.specs.Prelude.{◌≡◌, Some};
ghost use Rattle.board.specs.Refusals.{refusal_number, refusal_layer, refusal_text};

use std::error::Error;
use std::fmt;

#[derive(Clone, Copy, Debug, PartialEq, Eq)]
pub enum Refusal {
    Form = 1,
    MatchEnded,
    NotDue,
    SetupSquare,
    OtherPiece,
    Length,
    SideNumber,
    Letter,
    FullSet,
    Unsupported,
    HistoryCapacity,
    OffBoard,
    EmptySquare,
    StepsMade,
    Occupied,
    NoPushOrPull,
    Frozen,
    RabbitBackward,
    UnfinishedPush,
    Removal,
    HalfPush,
    Unchanged,
    ThirdTime,
    StoreFull,
    CountFull,
    ShortMemory,
}

/// The part of the library that a refusal comes from.
#[derive(Clone, Copy, PartialEq, Eq)]
pub enum Layer {
    Notation,
    Caller,
    Store,
    Rules,
}

impl Refusal {
    pub fn number(self) -> u8
        ensures { result ≡ refusal_number self }
    {
        self as u8
    }

    pub fn layer(self) -> Layer
        ensures { result ≡ refusal_layer self }
    {
        match self {
            Refusal::Form
            | Refusal::MatchEnded
            | Refusal::NotDue
            | Refusal::SetupSquare
            | Refusal::OtherPiece
            | Refusal::Removal
            | Refusal::HalfPush => Layer::Notation,
            Refusal::Length | Refusal::SideNumber | Refusal::ShortMemory => Layer::Caller,
            Refusal::HistoryCapacity | Refusal::StoreFull | Refusal::CountFull => Layer::Store,
            _ => Layer::Rules,
        }
    }
}

/// A short message.
impl fmt::Display for Refusal {
    ghost output = { λ refusal. Some (refusal_text refusal) };

    fn fmt<W: fmt::Write>(&self, f: &mut fmt::Formatter<W>) -> fmt::Result {
        f.write_str(match self {
            Refusal::Form => "wrong form",
            Refusal::MatchEnded => "the match has ended",
            Refusal::NotDue => "not due",
            Refusal::SetupSquare => "wrong square of a setup",
            Refusal::OtherPiece => "another piece",
            Refusal::Length => "not 64 letters for a position, or not 16 for a setup",
            Refusal::SideNumber => "the side number is neither 0 nor 1",
            Refusal::Letter =>
                "a byte is no letter of a square, or in a setup no letter of the side",
            Refusal::FullSet =>
                "a position has more of a kind than the full set, or a setup is not just the full set",
            Refusal::Unsupported => "a piece on a trap has no friend next to it",
            Refusal::HistoryCapacity => "the capacity of the history is reached",
            Refusal::OffBoard => "the step leaves the board",
            Refusal::EmptySquare => "the square is empty",
            Refusal::StepsMade => "too many steps are made",
            Refusal::Occupied => "the target is occupied",
            Refusal::NoPushOrPull => "the step is neither a push nor a pull",
            Refusal::Frozen => "the piece is frozen",
            Refusal::RabbitBackward => "a rabbit goes backward",
            Refusal::UnfinishedPush => "a push stays unfinished",
            Refusal::Removal => "wrong removal",
            Refusal::HalfPush => "half a push",
            Refusal::Unchanged => "the position is unchanged",
            Refusal::ThirdTime => "the position stands a third time",
            Refusal::StoreFull => "the key is not held, and as many keys are held as the capacity",
            Refusal::CountFull => "the key's count is 255",
            Refusal::ShortMemory => "the memory is too short",
        })
    }
}

impl Error for Refusal {}
