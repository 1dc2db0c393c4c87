use bits::Square;
use board::Kind;

/// What the last step of a half-made turn leaves open.
#[derive(Clone, Copy)]
pub enum Pending {
    Nothing,
    /// An own piece of the kind left the square by a plain step: a weaker enemy may be pulled there.
    Pull { left: Square, puller: Kind },
    /// An enemy piece of the kind was pushed off the square: a stronger own piece has to follow.
    Push { left: Square, pushed: Kind },
}
