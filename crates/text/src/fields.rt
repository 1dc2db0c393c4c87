// Lines, fields and numbers of a text.
ghost use Rattle.std.specs.Prelude.{◌≡◌, ℕ, ◌+◌, ◌-◌, ◌*◌, ◌<◌, [], ◌∷◌, length, MatchOption};
ghost use Rattle.text.specs.Parting.{pieces, lines_of};
ghost use Rattle.text.specs.Numerals.{Digit, Numeral};
ghost use Rattle.text.specs.Fields.{pieces_left, to_come};
ghost use Rattle.std.specs.Iterator.{at_most};

/// What stands before the first such byte, and what stands after it, if it is there.
fn cut(text: &[u8], by: u8) -> (&[u8], Option<&[u8]>)
    ensures { pieces by text.now ≡ result.0.now ∷ pieces_left by result.1 }
{
    match text.iter().position(|byte| *byte == by) {
        Some(i) => (&text[..i], Some(&text[i + 1..])),
        None => (text, None),
    }
}

/// The pieces of a text between the bytes that part them.
// It isn't std's `Split`: no function can give one whose test it makes itself.
#[derive(Drop)]
pub struct Pieces<'a> {
    rest: Option<&'a [u8]>,
    by: u8,
}

impl<'a> Iterator for Pieces<'a> {
    type Item = &'a [u8];

    ghost next_gives = { λ s r t. MatchOption r (to_come s ≡ []) (λ q. to_come s ≡ q.now ∷ to_come t) };

    ghost remaining = { λ s. at_most (length (to_come s)) };

    fn next(&mut self) -> Option<&'a [u8]> {
        let (piece, rest) = cut(self.rest?, self.by);
        self.rest = rest;
        Some(piece)
    }
}

/// The lines of a text. Each ends with a line feed, which the last may lack.
#[tactic(auto, using(crate::proofs::Endings::no_lines, crate::proofs::Endings::last_ended, crate::proofs::Endings::last_open))]
pub fn lines(text: &[u8]) -> Pieces<'_>
    ensures { to_come result ≡ lines_of text.now }
{
    let rest = match text {
        [] => None,
        [front @ .., b'\n'] => Some(front),
        _ => Some(text),
    };
    Pieces { rest, by: b'\n' }
}

/// The fields of a line, with one space between two.
pub fn fields(line: &[u8]) -> Pieces<'_>
    ensures { to_come result ≡ pieces 32 line.now }
{
    Pieces {
        rest: Some(line),
        by: b' ',
    }
}

/// The number with one more decimal digit, if the byte is one and the number stays below 256.
fn with_digit(value: u8, byte: u8) -> Option<u8>
    ensures { MatchOption result (Digit byte → 255 < value * 10 + (byte - 48)) (λ n. Digit byte × (n ≡ value * 10 + (byte - 48))) }
{
    match byte {
        b'0'..=b'9' => value.checked_mul(10)?.checked_add(byte - b'0'),
        _ => None,
    }
}

/// The number up to 255 that one to three decimal digits spell.
#[tactic(auto, using(crate::proofs::Spelling::grows, crate::proofs::Spelling::next_digit, crate::proofs::Spelling::with_next, crate::proofs::Spelling::made_of))]
pub fn number(text: &[u8]) -> Option<u8>
    ensures { MatchOption result ((n : ℕ) → Numeral text.now n → ⊥) (λ n. Numeral text.now n) }
{
    if text.is_empty() || text.len() > 3 {
        return None;
    }
    let mut value = 0;
    for &byte in text {
        value = with_digit(value, byte)?;
    }
    Some(value)
}
