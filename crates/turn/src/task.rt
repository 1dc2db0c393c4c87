// A task: a board, the side to move, and codes to play.
ghost use Rattle.std.specs.Prelude.{ℕ, List, IfOk, MatchOption};
ghost use Rattle.text.specs.Numerals.{Numerals};
ghost use Rattle.text.specs.Fields.{to_come};
ghost use Rattle.turn.specs.Tasks.{ReadAs};

use std::alloc::{AllocError, Global};
use text::fields::fields;
use text::{Pieces, number};

#[derive(Drop)]
pub struct Task<'a> {
    pub letters: &'a [u8],
    pub side: u8,
    pub codes: Vec<u8>,
}

/// The numbers that the fields spell, if each spells one.
fn numbers(heap: Global, fields: Pieces<'_>) -> Result<Option<Vec<u8>>, AllocError>
    ensures { IfOk result (λ o. MatchOption o ((ns : List ℕ) → Numerals (to_come fields.entry) ns → ⊥) (λ v. Numerals (to_come fields.entry) v.items)) }
{
    let mut numbers = Vec::new(heap);
    for field in fields {
        let Some(number) = number(field) else {
            return Ok(None);
        };
        numbers.push(number)?;
    }
    Ok(Some(numbers))
}

impl<'a> Task<'a> {
    /// The task of a line: letters, a side number and codes, with one space between two.
    pub fn read(heap: Global, line: &'a [u8]) -> Result<Option<Task<'a>>, AllocError>
        ensures { IfOk result (ReadAs line.now) }
    {
        let mut fields = fields(line);
        let (Some(letters), Some(side)) = (fields.next(), fields.next().and_then(number)) else {
            return Ok(None);
        };
        Ok(numbers(heap, fields)?.map(|codes| Task {
            letters,
            side,
            codes,
        }))
    }
}
