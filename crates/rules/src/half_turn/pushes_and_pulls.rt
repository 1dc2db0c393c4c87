// What a code's step would be: the one text that says what ends a pull, begins a push and finishes one.
ghost use Rattle.std.specs.Prelude.{◌≤◌, Decides, MatchOption};
ghost use Rattle.board.specs.declared.pieces.Piece.{Piece as PieceT};
ghost use Rattle.rules.specs.Codes.{square};
ghost use Rattle.rules.specs.Steps.{Own, Enemy};
ghost use Rattle.rules.specs.Actions.{CanPush, Pusher, BeginsPush};
ghost use Rattle.rules.specs.HalfTurns.{half_of, NoPush, opened, Ends, Finishes};
ghost use Rattle.rules.specs.Checks.{Foreign};

use super::HalfTurn;
use crate::{Pending, StepCode};
use bits::Square;
use board::{Kind, Piece, Side};

impl HalfTurn {
    pub fn is_push_open(self) -> bool
        ensures { Decides result (NoPush (opened self.pending) → ⊥) }
    {
        matches!(self.pending, Pending::Push { .. })
    }

    /// Whether so many steps are made, with no push open.
    pub(super) fn has_made(self, steps: u8) -> bool
        ensures { Decides result (NoPush (opened self.pending) × (steps ≤ self.steps)) }
    {
        !self.is_push_open() && self.steps >= steps
    }

    /// The side's piece on the square, if there is one.
    fn piece_of(self, side: Side, square: Square) -> Option<Piece>
        ensures { MatchOption result ((p : PieceT) → Own side self.board square.number p → ⊥) (Own side self.board square.number) }
    {
        self.board.at(square).filter(|piece| piece.side == side)
    }

    /// The own piece on the square, if there is one.
    fn own_at(self, square: Square) -> Option<Piece>
        ensures { MatchOption result ((p : PieceT) → Own self.side self.board square.number p → ⊥) (Own self.side self.board square.number) }
    {
        self.piece_of(self.side, square)
    }

    /// The enemy piece on the square, if there is one.
    fn enemy_at(self, square: Square) -> Option<Piece>
        ensures { MatchOption result ((p : PieceT) → Enemy self.side self.board square.number p → ⊥) (Enemy self.side self.board square.number) }
    {
        self.piece_of(self.side.other(), square)
    }

    /// Whether the code's square holds an enemy piece.
    pub(super) fn moves_enemy(self, code: StepCode) -> bool
        ensures { Decides result ((p : PieceT) × Enemy self.side self.board (square code.number) p) }
    {
        self.enemy_at(code.square()).is_some()
    }

    /// The pull test: whether the code's step ends the pull that is possible. The puller may be gone.
    pub(super) fn ends_pull(self, code: StepCode) -> bool
        ensures { Decides result (Ends self.side (opened self.pending) self.board code.number) }
    {
        let Pending::Pull { left, puller } = self.pending else {
            return false;
        };
        self.enemy_at(code.square()).is_some_and(|piece| puller.is_stronger(piece.kind)
            && code.goes_to(left))
    }

    /// Whether the code's step, with no push open, moves an enemy piece and ends no pull.
    pub(super) fn is_foreign(self, code: StepCode) -> bool
        ensures { Decides result (NoPush (opened self.pending) × Foreign self.side (half_of self) code.number) }
    {
        !self.is_push_open() && self.moves_enemy(code) && !self.ends_pull(code)
    }

    /// Whether the code's step finishes the push that is open.
    pub(super) fn finishes_push(self, code: StepCode) -> bool
        ensures { Decides result (Finishes self.side (opened self.pending) self.board code.number) }
    {
        let Pending::Push { left, pushed } = self.pending else {
            return false;
        };
        self.own_at(code.square()).is_some_and(|piece| piece.kind.is_stronger(pushed)
            && code.goes_to(left))
    }

    /// Whether the square has an own piece that is stronger than the kind and isn't frozen.
    fn can_push(self, place: Square, kind: Kind) -> bool
        ensures { Decides result (CanPush self.side self.board place.number kind) }
    {
        self.own_at(place)
            .is_some_and(|piece| piece.kind.is_stronger(kind))
            && !self.board.is_frozen(place)
    }

    /// Whether such a piece stands next to the square.
    fn has_pusher(self, square: Square, kind: Kind) -> bool
        ensures { Decides result (Pusher self.side self.board square.number kind) }
    {
        square
            .neighbours()
            .squares()
            .any(|place| self.can_push(place, kind))
    }

    /// Whether the code's step begins a push: an enemy piece with a stronger own piece next to it that isn't frozen.
    pub(super) fn begins_push(self, code: StepCode) -> bool
        ensures { Decides result (BeginsPush self.side self.board code.number) }
    {
        let from = code.square();
        self.enemy_at(from)
            .is_some_and(|piece| self.has_pusher(from, piece.kind))
    }
}
