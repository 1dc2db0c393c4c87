// What stands on the squares of a board.
ghost use Rattle.std.specs.Prelude.{◌≡◌, ℕ, ◌≢◌, None, Decides};
ghost use Rattle.bits.specs.Planes.{on};
ghost use Rattle.board.specs.Cells.{cell, Spells, same_planes, SameSquares, Changed};
ghost use Rattle.std.specs.Cmp.Rules.{comparing};
ghost use Rattle.std.proofs.Common.{rules};

use super::Board;
use crate::{Kind, Piece, Side};
use bits::{Plane, Square};

/// What the four planes have of a square: Gold's, and those of the strength's one, two and four.
struct Digits {
    gold: bool,
    one: bool,
    two: bool,
    four: bool,
}

impl Digits {
    /// The digits of a square that holds this.
    fn of(holds: Option<Piece>) -> Digits
        ensures { Spells result.gold result.one result.two result.four holds }
    {
        // Case by case, not by the strength's bits: reading a board then takes one jump for each letter.
        let (four, two, one) = match holds.map(|piece| piece.kind) {
            None => (false, false, false),
            Some(Kind::Rabbit) => (false, false, true),
            Some(Kind::Cat) => (false, true, false),
            Some(Kind::Dog) => (false, true, true),
            Some(Kind::Horse) => (true, false, false),
            Some(Kind::Camel) => (true, false, true),
            Some(Kind::Elephant) => (true, true, false),
        };
        Digits {
            gold: holds.is_some_and(|piece| piece.side == Side::Gold),
            one,
            two,
            four,
        }
    }
}

/// The plane after a step from one square to another.
fn carried(plane: Plane, from: Square, to: Square) -> Plane
    ensures left { from.number ≢ to.number → on result from.number ≡ 0 }
    ensures reached { on result to.number ≡ on plane from.number }
    ensures others { (s : ℕ) → s ≢ from.number → s ≢ to.number → on result s ≡ on plane s }
{
    plane.without(from).set(to, plane.has(from))
}

impl Board {
    /// The board with no piece.
    pub fn empty() -> Board
        ensures { (s : ℕ) → cell result s ≡ None }
    {
        Board {
            gold: Plane::empty(),
            ones: Plane::empty(),
            twos: Plane::empty(),
            fours: Plane::empty(),
        }
    }

    /// What stands on the square.
    pub fn at(self, square: Square) -> Option<Piece>
        ensures { result ≡ cell self square.number }
    {
        let one = self.ones.has(square);
        let two = self.twos.has(square);
        let kind = match (self.fours.has(square), two, one) {
            (false, false, false) => return None,
            (false, false, true) => Kind::Rabbit,
            (false, true, false) => Kind::Cat,
            (false, true, true) => Kind::Dog,
            (true, false, false) => Kind::Horse,
            (true, false, true) => Kind::Camel,
            (true, true, _) => Kind::Elephant,
        };
        let side = if self.gold.has(square) {
            Side::Gold
        } else {
            Side::Silver
        };
        Some(Piece { side, kind })
    }

    /// The board with this on the square, in place of what stood there.
    pub fn put(self, square: Square, holds: Option<Piece>) -> Board
        ensures { Changed self result square.number holds }
    {
        let Digits {
            gold,
            one,
            two,
            four,
        } = Digits::of(holds);
        Board {
            gold: self.gold.set(square, gold),
            ones: self.ones.set(square, one),
            twos: self.twos.set(square, two),
            fours: self.fours.set(square, four),
        }
    }

    /// The board after what stands on one square went to another.
    pub fn moved(self, from: Square, to: Square) -> Board
        ensures left { from.number ≢ to.number → cell result from.number ≡ None }
        ensures reached { cell result to.number ≡ cell self from.number }
        ensures others { (s : ℕ) → s ≢ from.number → s ≢ to.number → cell result s ≡ cell self s }
    {
        Board {
            gold: carried(self.gold, from, to),
            ones: carried(self.ones, from, to),
            twos: carried(self.twos, from, to),
            fours: carried(self.fours, from, to),
        }
    }

    /// The board without what stands on some squares.
    #[tactic(auto, using(bits::proofs::Same::on_lt))]
    pub fn without(self, squares: Plane) -> Board
        ensures gone { (s : ℕ) → on squares s ≡ 1 → cell result s ≡ None }
        ensures kept { (s : ℕ) → on squares s ≡ 0 → cell result s ≡ cell self s }
    {
        Board {
            gold: self.gold - squares,
            ones: self.ones - squares,
            twos: self.twos - squares,
            fours: self.fours - squares,
        }
    }
}

impl PartialEq for Board {
    ghost eq = { same_planes };

    ghost laws = { Prim.search (comparing, rules) };

    // By hand, since a derived == could not promise what it says of the squares.
    fn eq(&self, other: &Board) -> bool
        ensures value { result ≡ same_planes self.now other.now }
        ensures same { Decides result (self.now ≡ other.now) }
        ensures same_squares { Decides result (SameSquares self.now other.now) }
    {
        self.gold == other.gold
            && self.ones == other.ones
            && self.twos == other.twos
            && self.fours == other.fours
    }
}

impl Eq for Board {
    ghost laws = { Prim.search (comparing, rules) };
}
