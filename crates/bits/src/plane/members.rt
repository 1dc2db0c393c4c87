ghost use Rattle.std.specs.Prelude.{◌≡◌, ℕ, ◌-◌, ◌<◌, min, max, ◌≢◌, if◌then◌else◌, Decides, MatchOption};
ghost use Rattle.bits.specs.Digits.{digit, tally};
ghost use Rattle.bits.specs.Planes.{on, Changed};

use super::Plane;
use crate::Square;
use std::ops::{BitAnd, BitOr, Sub};

impl Plane {
    /// The plane of the squares at which a word has a one.
    pub fn new(word: u64) -> Plane
        ensures { (k : ℕ) → on result k ≡ digit word k }
    {
        Plane { word }
    }

    /// The plane with no square.
    #[tactic(auto, using(crate::proofs::Digits::digit_of_zero))]
    pub fn empty() -> Plane
        ensures { (k : ℕ) → on result k ≡ 0 }
    {
        Plane { word: 0 }
    }

    pub fn is_empty(self) -> bool
        ensures { Decides result ((k : ℕ) → on self k ≡ 0) }
    {
        self.word == 0
    }

    #[tactic(auto, using(crate::proofs::Digits::digit_lt, crate::proofs::Digits::digit_and_one))]
    pub fn has(self, square: Square) -> bool
        ensures { on self square.number ≡ (if result then 1 else 0) }
    {
        (self.word >> square.number()) & 1 == 1
    }

    #[tactic(auto, using(crate::proofs::Digits::or_of_64, crate::proofs::Digits::digit_with_here, crate::proofs::Digits::digit_with_other))]
    pub fn with(self, square: Square) -> Plane
        ensures { Changed self result square.number 1 }
    {
        Plane {
            word: self.word | (1 << square.number()),
        }
    }

    #[tactic(auto, using(crate::proofs::Digits::digit_without_here, crate::proofs::Digits::digit_without_other))]
    pub fn without(self, square: Square) -> Plane
        ensures { Changed self result square.number 0 }
    {
        Plane {
            word: self.word & !(1 << square.number()),
        }
    }

    /// With the square or without it, as said.
    pub fn set(self, square: Square, present: bool) -> Plane
        ensures { Changed self result square.number (if present then 1 else 0) }
    {
        if present {
            self.with(square)
        } else {
            self.without(square)
        }
    }

    /// Whether the planes share a square.
    pub fn meets(self, other: Plane) -> bool
        ensures { Decides result ((k : ℕ) × (k < 64) × (on self k ≡ 1) × (on other k ≡ 1)) }
    {
        self.word & other.word != 0
    }

    /// How many squares the plane has.
    #[tactic(auto, using(crate::proofs::Digits::ones_tally))]
    pub fn count(self) -> u32
        ensures { result ≡ tally (on self) 64 }
    {
        self.word.count_ones()
    }

    /// The square with the lowest number, if there is any square.
    pub fn lowest(self) -> Option<Square>
        ensures { MatchOption result ((k : ℕ) → on self k ≡ 0) (λ s. (on self s.number ≡ 1) × ((k : ℕ) → k < s.number → on self k ≡ 0)) }
    {
        Square::new(self.word.trailing_zeros() as u8)
    }
}

/// The squares of both planes.
impl BitAnd for Plane {
    type Output = Plane;

    ghost bitand_gives = { λ p q r. (k : ℕ) → on r k ≡ min (on p k) (on q k) };

    #[tactic(auto, using(crate::proofs::Digits::digit_and))]
    fn bitand(self, other: Plane) -> Plane {
        Plane {
            word: self.word & other.word,
        }
    }
}

/// The squares of either plane.
impl BitOr for Plane {
    type Output = Plane;

    ghost bitor_gives = { λ p q r. (k : ℕ) → on r k ≡ max (on p k) (on q k) };

    #[tactic(auto, using(crate::proofs::Digits::digit_or, crate::proofs::Digits::or_of_64))]
    fn bitor(self, other: Plane) -> Plane {
        Plane {
            word: self.word | other.word,
        }
    }
}

/// The squares of the first plane that are not in the second.
impl Sub for Plane {
    type Output = Plane;

    ghost sub_gives = { λ p q r. (k : ℕ) → on r k ≡ on p k - on q k };

    #[tactic(auto, using(crate::proofs::Digits::minus_of_64))]
    fn sub(self, other: Plane) -> Plane {
        Plane {
            word: self.word & !other.word,
        }
    }
}
