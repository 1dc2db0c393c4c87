// How pieces stand to each other.
ghost use Rattle.std.specs.Prelude.{Decides};
ghost use Rattle.bits.specs.Planes.{SquaresWhere};
ghost use Rattle.board.specs.Standing.{FriendNext, StrongerNext, Held, Frozen, Trap, Lone, Unsupported};

use super::Board;
use crate::{Piece, Side};
use bits::{Plane, Square};

/// The traps c3, f3, c6 and f6.
#[tactic(auto, using(crate::proofs::Traps::digit_trap, crate::proofs::Traps::trap_digit))]
fn traps() -> Plane
    ensures { SquaresWhere result Trap }
{
    Plane::new(0x0000_2400_0024_0000)
}

impl Board {
    /// Whether a piece of the side stands next to the square.
    #[tactic(auto, using(crate::proofs::Holding::some_of_side, crate::proofs::Holding::of_side_some, crate::proofs::Holding::on_board))]
    pub fn has_friend_next(self, square: Square, side: Side) -> bool
        ensures { Decides result (FriendNext self square.number side) }
    {
        self.of(side).meets(square.neighbours())
    }

    /// Whether a stronger enemy of the piece stands next to the square.
    pub fn has_stronger_next(self, square: Square, piece: Piece) -> bool
        ensures { Decides result (StrongerNext self square.number piece) }
    {
        let enemies = self.of(piece.side.other());
        (enemies & self.stronger(piece.kind)).meets(square.neighbours())
    }

    /// Whether the piece on the square may not move: a stronger enemy is next to it, and no friend is.
    pub fn is_frozen(self, square: Square) -> bool
        ensures { Decides result (Frozen self square.number) }
    {
        self.at(square)
            .is_some_and(|piece| self.is_held(square, piece))
    }

    /// Whether a stronger enemy of the piece is next to the square, and no friend is.
    fn is_held(self, square: Square, piece: Piece) -> bool
        ensures { Decides result (Held self square.number piece) }
    {
        self.has_stronger_next(square, piece) && !self.has_friend_next(square, piece.side)
    }

    /// The squares of the side's pieces with no friend next to them.
    fn lone(self, side: Side) -> Plane
        ensures { SquaresWhere result (Lone self side) }
    {
        let own = self.of(side);
        own - own.spread()
    }

    /// The squares of the pieces on traps with no friend next to them.
    pub fn unsupported(self) -> Plane
        ensures { SquaresWhere result (Unsupported self) }
    {
        (self.lone(Side::Gold) | self.lone(Side::Silver)) & traps()
    }
}
