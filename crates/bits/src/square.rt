// A square by its number, 8 * row + column, each from 0: a1 is 0, h8 is 63.
ghost use Rattle.std.specs.Prelude.{◌<◌};

mod neighbours;

#[derive(Clone, Copy, PartialEq, Eq)]
pub struct Square {
    number: u8,
    ghost below: { number < 64 },
}
