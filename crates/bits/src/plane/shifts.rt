ghost use Rattle.std.specs.Prelude.{◌≡◌, ℕ, ◌<◌};
ghost use Rattle.bits.specs.Squares.{Toward, Next};
ghost use Rattle.bits.specs.Planes.{on};

use super::Plane;
use crate::Direction;

const NOT_FIRST_COLUMN: u64 = 0xfefe_fefe_fefe_fefe;

const NOT_LAST_COLUMN: u64 = 0x7f7f_7f7f_7f7f_7f7f;

impl Plane {
    /// Each square of the plane goes one square in the direction; what leaves the board is gone.
    pub fn shifted(self, direction: Direction) -> Plane
        ensures only { (k : ℕ) → k < 64 → on result k ≡ 1 → (j : ℕ) × (j < 64) × Toward direction j k × (on self j ≡ 1) }
        ensures each { (j k : ℕ) → j < 64 → k < 64 → Toward direction j k → on self j ≡ 1 → on result k ≡ 1 }
    {
        let word = self.word;
        Plane::new(match direction {
            Direction::North => word << 8,
            Direction::East => (word & NOT_LAST_COLUMN) << 1,
            Direction::South => word >> 8,
            Direction::West => (word & NOT_FIRST_COLUMN) >> 1,
        })
    }

    /// The squares next to a square of the plane.
    pub fn spread(self) -> Plane
        ensures only { (k : ℕ) → k < 64 → on result k ≡ 1 → (j : ℕ) × (j < 64) × Next k j × (on self j ≡ 1) }
        ensures each { (k j : ℕ) → k < 64 → j < 64 → Next k j → on self j ≡ 1 → on result k ≡ 1 }
    {
        self.shifted(Direction::North)
            | self.shifted(Direction::East)
            | self.shifted(Direction::South)
            | self.shifted(Direction::West)
    }
}
