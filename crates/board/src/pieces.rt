// The two sides, the six kinds of piece, and the letters that they are written with.
ghost use Rattle.std.specs.Prelude.{◌≡◌, ◌∷◌, [], Some, Decides};
ghost use Rattle.board.specs.Pieces.{opponent, side_number, SideRead, power, Stronger, full};
ghost use Rattle.board.specs.Letters.{letter_of, LetterRead};

use crate::Refusal;
use std::fmt;

#[derive(Clone, Copy, PartialEq, Eq)]
pub enum Side {
    Gold,
    Silver,
}

/// The kinds, the strongest first, each with its strength.
#[derive(Clone, Copy, PartialEq, Eq)]
pub enum Kind {
    Elephant = 6,
    Camel = 5,
    Horse = 4,
    Dog = 3,
    Cat = 2,
    Rabbit = 1,
}

#[derive(Clone, Copy, PartialEq, Eq)]
pub struct Piece {
    pub side: Side,
    pub kind: Kind,
}

impl Side {
    pub fn other(self) -> Side
        ensures { result ≡ opponent self }
    {
        match self {
            Side::Gold => Side::Silver,
            Side::Silver => Side::Gold,
        }
    }
}

/// The side with the number: 0 is Gold, 1 is Silver.
impl TryFrom<u8> for Side {
    type Error = Refusal;

    ghost try_from_gives = { SideRead };

    fn try_from(number: u8) -> Result<Side, Refusal> {
        match number {
            0 => Ok(Side::Gold),
            1 => Ok(Side::Silver),
            _ => Err(Refusal::SideNumber),
        }
    }
}

/// The number of a side: 0 for Gold, 1 for Silver.
impl From<Side> for u8 {
    ghost from_gives = { λ side number. number ≡ side_number side };

    fn from(side: Side) -> u8 {
        side as u8
    }
}

impl Kind {
    /// Each kind once, the strongest first.
    pub(crate) const ALL: [Kind; 6] = [
        Kind::Elephant,
        Kind::Camel,
        Kind::Horse,
        Kind::Dog,
        Kind::Cat,
        Kind::Rabbit,
    ];

    /// From 1 for a rabbit to 6 for an elephant.
    pub fn strength(self) -> u8
        ensures { result ≡ power self }
    {
        self as u8
    }

    pub fn is_stronger(self, than: Kind) -> bool
        ensures { Decides result (Stronger self than) }
    {
        self.strength() > than.strength()
    }

    /// How many of the kind a side begins with.
    pub fn full_set(self) -> u32
        ensures { result ≡ full self }
    {
        match self {
            Kind::Elephant | Kind::Camel => 1,
            Kind::Horse | Kind::Dog | Kind::Cat => 2,
            Kind::Rabbit => 8,
        }
    }
}

/// The piece that a letter stands for.
impl TryFrom<char> for Piece {
    type Error = Refusal;

    ghost try_from_gives = { LetterRead };

    fn try_from(letter: char) -> Result<Piece, Refusal> {
        let (side, kind) = match letter {
            'E' => (Side::Gold, Kind::Elephant),
            'M' => (Side::Gold, Kind::Camel),
            'H' => (Side::Gold, Kind::Horse),
            'D' => (Side::Gold, Kind::Dog),
            'C' => (Side::Gold, Kind::Cat),
            'R' => (Side::Gold, Kind::Rabbit),
            'e' => (Side::Silver, Kind::Elephant),
            'm' => (Side::Silver, Kind::Camel),
            'h' => (Side::Silver, Kind::Horse),
            'd' => (Side::Silver, Kind::Dog),
            'c' => (Side::Silver, Kind::Cat),
            'r' => (Side::Silver, Kind::Rabbit),
            _ => return Err(Refusal::Letter),
        };
        Ok(Piece { side, kind })
    }
}

/// The letter of a piece.
impl From<Piece> for char {
    ghost from_gives = { λ piece letter. letter ≡ letter_of piece };

    fn from(piece: Piece) -> char {
        match (piece.side, piece.kind) {
            (Side::Gold, Kind::Elephant) => 'E',
            (Side::Gold, Kind::Camel) => 'M',
            (Side::Gold, Kind::Horse) => 'H',
            (Side::Gold, Kind::Dog) => 'D',
            (Side::Gold, Kind::Cat) => 'C',
            (Side::Gold, Kind::Rabbit) => 'R',
            (Side::Silver, Kind::Elephant) => 'e',
            (Side::Silver, Kind::Camel) => 'm',
            (Side::Silver, Kind::Horse) => 'h',
            (Side::Silver, Kind::Dog) => 'd',
            (Side::Silver, Kind::Cat) => 'c',
            (Side::Silver, Kind::Rabbit) => 'r',
        }
    }
}

/// The letter of a piece.
impl fmt::Display for Piece {
    ghost output = { λ piece. Some (letter_of piece ∷ []) };

    fn fmt<W: fmt::Write>(&self, f: &mut fmt::Formatter<W>) -> fmt::Result {
        f.write_char(char::from(*self))
    }
}
