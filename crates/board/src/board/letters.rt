// Boards and setups written as letters.
ghost use Rattle.std.specs.Prelude.{◌≡◌, ◌+◌, ◌<◌, ◌≤◌, ℕ, length, Some, Ok, Err, Decides, MatchResult, slice_index};
ghost use Rattle.board.specs.Pieces.{full};
ghost use Rattle.board.specs.Letters.{spelled, SquareRead, OwnRead};
ghost use Rattle.board.specs.Cells.{cell};
ghost use Rattle.board.specs.Counts.{count_of};
ghost use Rattle.board.specs.Refusals.{refusal_number, NoneHits, FirstHit};
ghost use Rattle.board.specs.Reading.{Shows, letters_of, LaidOut, home, SetsUp, board_checks, setup_checks};

use super::Board;
use crate::{Kind, Piece, Refusal, Side};
use bits::Square;
use std::{array, fmt};

/// What a letter says of a square: its piece, or that it is empty.
fn square_read(letter: char) -> Result<Option<Piece>, Refusal>
    ensures { SquareRead letter result }
{
    match letter {
        '.' => Ok(None),
        _ => Piece::try_from(letter).map(Some),
    }
}

/// What a letter says of a square of the side's: its own piece.
fn own_read(side: Side, letter: char) -> Result<Option<Piece>, Refusal>
    ensures { OwnRead side letter result }
{
    let piece = Piece::try_from(letter)?;
    if piece.side == side {
        Ok(Some(piece))
    } else {
        Err(Refusal::Letter)
    }
}

/// The letter of what a square holds.
fn letter_of(holds: Option<Piece>) -> u8
    ensures { result ≡ spelled holds }
{
    holds.map_or('.', char::from) as u8
}

/// The number of the first square of a side's two rows.
fn home_square(side: Side) -> u8
    ensures { result ≡ home side }
{
    match side {
        Side::Gold => 0,
        Side::Silver => 48,
    }
}

/// The board with what the letters say on the squares from one on, each read as said, and nothing else.
fn laid_out<F: Fn(char) -> Result<Option<Piece>, Refusal>>(
    first: u8,
    letters: &[u8],
    read: F,
) -> Result<Board, Refusal>
    requires room { first + length letters.now ≤ 64 }
    requires reads { F.IsAlwaysCallable read }
    ensures { MatchResult result (LaidOut (F.post read) first letters.now) (λ e. (k : ℕ) × (k < length letters.now) × F.post read (slice_index letters.now k) (Err e)) }
{
    let mut board = Board::empty();
    for (i, letter) in letters.iter().enumerate() {
        let square = Square::new(first + i as u8).unwrap();
        let holds = read(char::from(*letter))?;
        board = board.put(square, holds);
    }
    Ok(board)
}

impl Board {
    /// The letters of the squares, in the order of their numbers.
    pub fn letters(self) -> [u8; 64]
        ensures { (length result ≡ 64) × Shows result self }
    {
        array::from_fn(|number| self.letter_on(number as u8))
    }

    /// The letter of the square with the number, and beyond the board that of an empty one.
    #[tactic(auto, using(crate::proofs::Holding::off_board))]
    fn letter_on(self, number: u8) -> u8
        ensures { result ≡ spelled (cell self number) }
    {
        letter_of(Square::new(number).and_then(|square| self.at(square)))
    }

    /// The board that 64 letters show, in the order of the squares.
    pub fn from_letters(letters: &[u8]) -> Result<Board, Refusal>
        ensures { MatchResult result (λ b. NoneHits (board_checks letters.now) × Shows letters.now b) (λ e. FirstHit (board_checks letters.now) (refusal_number e)) }
    {
        if letters.len() != 64 {
            return Err(Refusal::Length);
        }
        laid_out(0, letters, square_read)
    }

    /// A side's setup, from 16 letters for its two rows in the order of the squares: the board with these pieces alone.
    pub fn from_setup(side: Side, letters: &[u8]) -> Result<Board, Refusal>
        ensures { MatchResult result (λ b. NoneHits (setup_checks side letters.now) × SetsUp side letters.now b) (λ e. FirstHit (setup_checks side letters.now) (refusal_number e)) }
    {
        if letters.len() != 16 {
            return Err(Refusal::Length);
        }
        let board = laid_out(home_square(side), letters, |letter| own_read(side, letter))?;
        if board.has_full_set(side) {
            Ok(board)
        } else {
            Err(Refusal::FullSet)
        }
    }

    /// Whether the side has more of some kind than the full set.
    pub fn exceeds_full_set(self, side: Side) -> bool
        ensures { Decides result ((kind : Kind) × (full kind < count_of self side kind)) }
    {
        Kind::ALL
            .iter()
            .any(|kind| self.count(side, *kind) > kind.full_set())
    }

    /// Whether the side has just the full set.
    pub fn has_full_set(self, side: Side) -> bool
        ensures { Decides result ((kind : Kind) → count_of self side kind ≡ full kind) }
    {
        Kind::ALL
            .iter()
            .all(|kind| self.count(side, *kind) == kind.full_set())
    }
}

/// The letters of the squares, in the order of their numbers.
impl fmt::Display for Board {
    ghost output = { λ board. Some (letters_of board) };

    fn fmt<W: fmt::Write>(&self, f: &mut fmt::Formatter<W>) -> fmt::Result {
        for letter in self.letters() {
            f.write_char(char::from(letter))?;
        }
        Ok(())
    }
}
