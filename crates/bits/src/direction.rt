/// The directions in the order of their numbers: north goes a row up, east a column up.
#[derive(Clone, Copy, PartialEq, Eq)]
pub enum Direction {
    North,
    East,
    South,
    West,
}
