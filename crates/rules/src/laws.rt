// Laws of the rules that no single call shows.
ghost use Rattle.std.specs.Prelude.{◌≡◌, true};
ghost use Rattle.rules.specs.Theorems.{ChangeIsPossible};

/// Whoever has a turn has one that ends on another board.
pub fn whoever_has_a_turn_has_one_that_changes_the_board() -> bool
    ensures { (result ≡ true) × ChangeIsPossible }
{
    true
}
