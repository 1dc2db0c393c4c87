ghost use Rattle.std.specs.Prelude.{◌≡◌, ℕ, ◌<◌, ◌≤◌, MatchOption};
ghost use Rattle.bits.specs.Squares.{Toward, Next};
ghost use Rattle.bits.specs.Planes.{on};

use super::Square;
use crate::{Direction, Plane};

const NEIGHBOURS: [u64; 64] = [
    0x0000_0000_0000_0102,
    0x0000_0000_0000_0205,
    0x0000_0000_0000_040a,
    0x0000_0000_0000_0814,
    0x0000_0000_0000_1028,
    0x0000_0000_0000_2050,
    0x0000_0000_0000_40a0,
    0x0000_0000_0000_8040,
    0x0000_0000_0001_0201,
    0x0000_0000_0002_0502,
    0x0000_0000_0004_0a04,
    0x0000_0000_0008_1408,
    0x0000_0000_0010_2810,
    0x0000_0000_0020_5020,
    0x0000_0000_0040_a040,
    0x0000_0000_0080_4080,
    0x0000_0000_0102_0100,
    0x0000_0000_0205_0200,
    0x0000_0000_040a_0400,
    0x0000_0000_0814_0800,
    0x0000_0000_1028_1000,
    0x0000_0000_2050_2000,
    0x0000_0000_40a0_4000,
    0x0000_0000_8040_8000,
    0x0000_0001_0201_0000,
    0x0000_0002_0502_0000,
    0x0000_0004_0a04_0000,
    0x0000_0008_1408_0000,
    0x0000_0010_2810_0000,
    0x0000_0020_5020_0000,
    0x0000_0040_a040_0000,
    0x0000_0080_4080_0000,
    0x0000_0102_0100_0000,
    0x0000_0205_0200_0000,
    0x0000_040a_0400_0000,
    0x0000_0814_0800_0000,
    0x0000_1028_1000_0000,
    0x0000_2050_2000_0000,
    0x0000_40a0_4000_0000,
    0x0000_8040_8000_0000,
    0x0001_0201_0000_0000,
    0x0002_0502_0000_0000,
    0x0004_0a04_0000_0000,
    0x0008_1408_0000_0000,
    0x0010_2810_0000_0000,
    0x0020_5020_0000_0000,
    0x0040_a040_0000_0000,
    0x0080_4080_0000_0000,
    0x0102_0100_0000_0000,
    0x0205_0200_0000_0000,
    0x040a_0400_0000_0000,
    0x0814_0800_0000_0000,
    0x1028_1000_0000_0000,
    0x2050_2000_0000_0000,
    0x40a0_4000_0000_0000,
    0x8040_8000_0000_0000,
    0x0201_0000_0000_0000,
    0x0502_0000_0000_0000,
    0x0a04_0000_0000_0000,
    0x1408_0000_0000_0000,
    0x2810_0000_0000_0000,
    0x5020_0000_0000_0000,
    0xa040_0000_0000_0000,
    0x4080_0000_0000_0000,
];

impl Square {
    /// The square with the number, if there is one.
    pub fn new(number: u8) -> Option<Square>
        ensures { MatchOption result (64 ≤ number) (λ s. s.number ≡ number) }
    {
        if number < 64 {
            Some(Square { number })
        } else {
            None
        }
    }

    pub fn number(self) -> u8
        ensures same { result ≡ self.number }
        ensures below { result < 64 }
    {
        self.number
    }

    /// The next square in the direction, if the board does not end there.
    pub fn toward(self, direction: Direction) -> Option<Square>
        ensures { MatchOption result ((t : ℕ) → t < 64 → Toward direction self.number t → ⊥) (λ t. Toward direction self.number t.number) }
    {
        let number = self.number;
        match direction {
            Direction::North => Square::new(number + 8),
            Direction::East if number % 8 < 7 => Square::new(number + 1),
            Direction::South if number >= 8 => Square::new(number - 8),
            Direction::West if number % 8 > 0 => Square::new(number - 1),
            _ => None,
        }
    }

    /// The squares next to this one.
    #[tactic(auto, using(crate::proofs::Neighbours::in_table))]
    pub fn neighbours(self) -> Plane
        ensures { (k : ℕ) → k < 64 → (on result k ≡ 1 → Next self.number k) × (Next self.number k → on result k ≡ 1) }
    {
        Plane::new(NEIGHBOURS[self.number as usize])
    }
}
