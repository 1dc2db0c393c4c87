// A board as four planes: Gold's squares, and the squares whose piece's strength, rabbit 1 to elephant 6,
// has a one, a two or a four.
ghost use Rattle.board.specs.Planes.{Fitting};

use bits::Plane;

mod cells;
mod letters;
mod planes;
mod standing;

#[derive(Clone, Copy)]
pub struct Board {
    gold: Plane,
    ones: Plane,
    twos: Plane,
    fours: Plane,
    ghost fitting: { Fitting gold ones twos fours },
}
