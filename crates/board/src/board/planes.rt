// The squares of sides and kinds, and how many there are.
ghost use Rattle.std.specs.Prelude.{◌≡◌, ℕ};
ghost use Rattle.bits.specs.Planes.{on};
ghost use Rattle.board.specs.Cells.{cell, words_of};
ghost use Rattle.board.specs.Counts.{occupied_by, of_side, of_kind, above_kind, count_of};

use super::Board;
use crate::{Kind, Side};
use bits::Plane;

impl Board {
    /// The words of the four planes, which are the whole of the board.
    pub fn words(self) -> [u64; 4]
        ensures { result ≡ words_of self }
    {
        [
            self.gold.word(),
            self.ones.word(),
            self.twos.word(),
            self.fours.word(),
        ]
    }

    /// The squares that hold a piece.
    #[tactic(auto, using(crate::proofs::Holding::strength_law, crate::proofs::Holding::occupied_strength, bits::proofs::Same::on_lt))]
    pub fn occupied(self) -> Plane
        ensures { (s : ℕ) → on result s ≡ occupied_by (cell self s) }
    {
        self.ones | self.twos | self.fours
    }

    /// The squares of a side's pieces.
    #[tactic(auto, using(crate::proofs::Holding::gold_law, crate::proofs::Holding::silver_digit))]
    pub fn of(self, side: Side) -> Plane
        ensures { (s : ℕ) → on result s ≡ of_side (cell self s) side }
    {
        match side {
            Side::Gold => self.gold,
            Side::Silver => self.occupied() - self.gold,
        }
    }

    /// The squares of a kind of piece.
    #[tactic(auto, using(crate::proofs::Holding::strength_law, bits::proofs::Same::on_lt, std::proofs::lemmas::Bool::Decides::nat_tests))]
    pub fn kind(self, kind: Kind) -> Plane
        ensures { (s : ℕ) → on result s ≡ of_kind (cell self s) kind }
    {
        match kind {
            Kind::Elephant => self.fours & self.twos,
            Kind::Camel => self.fours & self.ones,
            Kind::Horse => self.fours - self.twos - self.ones,
            Kind::Dog => self.twos & self.ones,
            Kind::Cat => self.twos - self.fours - self.ones,
            Kind::Rabbit => self.ones - self.fours - self.twos,
        }
    }

    /// The squares of the pieces that are stronger than a kind.
    #[tactic(auto, using(crate::proofs::Holding::strength_law, bits::proofs::Same::on_lt, std::proofs::lemmas::Bool::Decides::nat_tests))]
    pub fn stronger(self, than: Kind) -> Plane
        ensures { (s : ℕ) → on result s ≡ above_kind (cell self s) than }
    {
        match than {
            Kind::Elephant => Plane::empty(),
            Kind::Camel => self.fours & self.twos,
            Kind::Horse => self.fours & (self.twos | self.ones),
            Kind::Dog => self.fours,
            Kind::Cat => self.fours | (self.twos & self.ones),
            Kind::Rabbit => self.fours | self.twos,
        }
    }

    /// How many pieces of the side and the kind there are.
    pub fn count(self, side: Side, kind: Kind) -> u32
        ensures { result ≡ count_of self side kind }
    {
        (self.of(side) & self.kind(kind)).count()
    }
}
