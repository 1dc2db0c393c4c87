// Keys, with an equality of their own, which may be coarser than sameness.
#![tactic(auto)]

ghost use Rattle.std.specs.Prelude.{◌≡◌, ℕ, Bool, true};
ghost use Rattle.std.specs.declared.cmp.Ordering.TheVariants.{Less, Equal};
ghost use Rattle.std.specs.declared.cmp.Ordering.{Ordering};
ghost use Rattle.std.specs.Ordering.{ordering_reverse};

use std::cmp::Ordering;

pub trait Key {
    ghost equals: { Self → Self → Bool };

    fn same(&self, other: &Self) -> bool
        ensures { result ≡ equals self.now other.now };

    ghost reflexive: { (x : Self) → equals x x ≡ true };

    ghost symmetric: { (x y : Self) → equals x y ≡ true → equals y x ≡ true };

    ghost transitive: { (x y z : Self) → equals x y ≡ true → equals y z ≡ true → equals x z ≡ true };
}

// A key that can be spread over a table.
pub trait SpreadKey: Key {
    ghost spreads: { Self → ℕ };

    fn spread(&self) -> u64
        ensures value { result ≡ spreads self.now }
        ensures alike { (y : Self) → Self.Key.equals self.now y ≡ true → spreads y ≡ result };
}

// A key that has a place in a total order, in which the equal keys tie.
pub trait OrderedKey: Key {
    ghost orders: { Self → Self → Ordering };

    fn compare(&self, other: &Self) -> Ordering
        ensures value { result ≡ orders self.now other.now }
        ensures tie { result ≡ Equal → Self.Key.equals self.now other.now ≡ true }
        ensures tied { Self.Key.equals self.now other.now ≡ true → result ≡ Equal }
        ensures alike { (y : Self) → Self.Key.equals self.now y ≡ true → orders y other.now ≡ result }
        ensures turns { orders other.now self.now ≡ ordering_reverse result }
        ensures climbs { (z : Self) → result ≡ Less → orders other.now z ≡ Less → orders self.now z ≡ Less };
}
