// The first 64 bytes of a line, as a key.
ghost use Rattle.std.specs.Prelude.{◌≡◌, ◌+◌, ◌<◌, ◌≤◌, fold, slice_index};
ghost use Rattle.keys.specs.Words.{same_words, word_order};
ghost use Rattle.lines.specs.Words.{word, words_of, stirred};
ghost use Rattle.keys.proofs.Words.{words_self, words_sym, words_trans};

use keys::{Key, OrderedKey, SpreadKey};
use std::array;
use std::cmp::Ordering;

/// The first 64 bytes of a line, eight to a word. A shorter line goes on with zeros.
#[derive(Clone, Copy, PartialEq, Eq, PartialOrd, Ord)]
pub struct Line {
    words: [u64; 8],
}

/// The byte at a place of the text, 0 past its end.
fn byte_at(text: &[u8], i: usize) -> u8
    ensures { result ≡ slice_index text.now i }
{
    text.get(i).copied().unwrap_or(0)
}

/// The eight bytes from a place on as one number, the first the highest.
fn word_from(text: &[u8], i: usize) -> u64
    requires { i ≤ 56 }
    ensures { result ≡ word text.now i }
{
    if i >= text.len() {
        return 0;
    }
    u64::from_be_bytes(array::from_fn(|k| byte_at(text, i + k)))
}

/// Mixes a word into what was mixed before.
fn stir(mixed: u64, word: u64) -> u64
    ensures { result ≡ stirred mixed word }
{
    let product = (mixed ^ word).wrapping_mul(0x9e37_79b9_7f4a_7c15);
    product ^ (product >> 32)
}

impl From<&[u8]> for Line {
    ghost from_gives = { λ text line. line.words ≡ words_of text.now };

    fn from(text: &[u8]) -> Line {
        Line {
            words: array::from_fn(|k| word_from(text, 8 * k)),
        }
    }
}

impl Key for Line {
    ghost equals = { λ x y. same_words x.words y.words };

    ghost reflexive = { λ x. words_self x.words };

    ghost symmetric = { λ x y. words_sym x.words y.words };

    ghost transitive = { λ x y z. words_trans x.words y.words z.words };

    fn same(&self, other: &Line) -> bool {
        self == other
    }
}

impl SpreadKey for Line {
    ghost spreads = { λ x. fold stirred 0 x.words };

    fn spread(&self) -> u64 {
        self.words.iter().fold(0, |mixed, word| stir(mixed, *word))
    }
}

impl OrderedKey for Line {
    ghost orders = { λ x y. word_order x.words y.words };

    fn compare(&self, other: &Line) -> Ordering {
        self.cmp(other)
    }
}
