// A position as a key: equal to those that agree with it in the 64 squares and the side to move.
ghost use Rattle.std.specs.Prelude.{◌≡◌, Decides};
ghost use Rattle.keys.specs.Words.{same_words, word_order};
ghost use Rattle.board.specs.Cells.{SameSquares};
ghost use Rattle.position.specs.Words.{position_words, ranked_words, mixed};
ghost use Rattle.keys.proofs.Words.{words_self, words_sym, words_trans};

use crate::Position;
use keys::{Key, OrderedKey, SpreadKey};
use std::cmp::Ordering;

/// Mixes the words of a position, with few multiplications.
#[tactic(auto, unfolding(crate::specs::Words::mixed_with))]
fn mix(words: [u64; 5]) -> u64
    ensures { result ≡ mixed words }
{
    let [side, gold, ones, twos, fours] = words;
    let two = gold.wrapping_mul(9).wrapping_add(ones);
    let three = two.wrapping_mul(5).wrapping_add(twos.rotate_left(21));
    let four = three.wrapping_mul(9).wrapping_add(fours.rotate_left(43));
    let all = four.wrapping_add(side);
    (all ^ (all >> 29)).wrapping_mul(0x9e37_79b9_7f4a_7c15)
}

/// The side's number and the words of the board.
fn words(position: &Position) -> [u64; 5]
    ensures { result ≡ position_words position.now }
{
    let side = u64::from(u8::from(position.side));
    let [gold, ones, twos, fours] = position.board.words();
    [side, gold, ones, twos, fours]
}

/// The words with the spread before them.
fn ranked(position: &Position) -> [u64; 6]
    ensures { result ≡ ranked_words position.now }
{
    let words = words(position);
    let [side, gold, ones, twos, fours] = words;
    [mix(words), side, gold, ones, twos, fours]
}

impl Key for Position {
    ghost equals = { λ p q. same_words (position_words p) (position_words q) };

    ghost reflexive = { λ p. words_self (position_words p) };

    ghost symmetric = { λ p q. words_sym (position_words p) (position_words q) };

    ghost transitive = { λ p q r. words_trans (position_words p) (position_words q) (position_words r) };

    #[tactic(auto, using(crate::proofs::Words::keys_decide))]
    fn same(&self, other: &Position) -> bool
        ensures value { result ≡ same_words (position_words self.now) (position_words other.now) }
        ensures agreement { Decides result (SameSquares self.now.board other.now.board × (self.now.side ≡ other.now.side)) }
    {
        *self == *other
    }
}

impl SpreadKey for Position {
    ghost spreads = { λ p. mixed (position_words p) };

    #[tactic(auto, using(keys::proofs::Words::words_is))]
    fn spread(&self) -> u64 {
        mix(words(self))
    }
}

// By the spread first, so that a plain tree stays shallow on positions that are alike.
impl OrderedKey for Position {
    ghost orders = { λ p q. word_order (ranked_words p) (ranked_words q) };

    fn compare(&self, other: &Position) -> Ordering {
        ranked(self).cmp(&ranked(other))
    }
}
