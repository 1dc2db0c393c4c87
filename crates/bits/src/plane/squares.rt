ghost use Rattle.std.specs.Prelude.{◌≡◌, [], ◌∷◌, length, MatchOption};
ghost use Rattle.bits.specs.Planes.{squares};
ghost use Rattle.std.specs.Iterator.{at_most};

use super::Plane;
use crate::Square;

/// The squares of a plane in ascending order.
#[derive(Drop)]
pub struct Squares {
    rest: Plane,
}

impl Plane {
    /// The squares of the plane, in ascending order.
    pub fn squares(self) -> Squares
        ensures { result.rest ≡ self }
    {
        Squares { rest: self }
    }

    /// Takes the square with the lowest number out of the plane.
    pub fn take_lowest(&mut self) -> Option<Square>
        ensures { MatchOption result ((squares self.old ≡ []) × (self.new ≡ self.old)) (λ s. squares self.old ≡ s.number ∷ squares self.new) }
    {
        let lowest = self.lowest()?;
        *self = self.without(lowest);
        Some(lowest)
    }
}

impl Iterator for Squares {
    type Item = Square;

    ghost next_gives = { λ s r t. MatchOption r (squares s.rest ≡ []) (λ q. squares s.rest ≡ q.number ∷ squares t.rest) };

    ghost remaining = { λ s. at_most (length (squares s.rest)) };

    fn next(&mut self) -> Option<Square> {
        self.rest.take_lowest()
    }
}
