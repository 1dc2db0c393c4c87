// Lines counted in a store.
ghost use Rattle.std.specs.Prelude.{◌≡◌, Ok, IfOk, Decides};
ghost use Rattle.lines.specs.Tallies.{TalliedAs};

use crate::line::Line;
use std::fmt;
use std::fmt::Write;
use store::{Refused, Store};
use text::lines;

/// Adds a line to the store, and answers the count that its key then has.
#[tactic(auto, using(crate::proofs::Tallies::raised_kept))]
pub fn add_line<S: Store<Line>>(store: &mut S, line: &[u8]) -> Result<u8, Refused>
    ensures { TalliedAs (S.Store.view store.old) (S.Store.view store.new) line.now result }
{
    let key = Line::from(line);
    store.add(key)?;
    Ok(store.count(&key))
}

/// Whether a line that was added, or refused, is the first of its key.
pub fn is_new(tallied: Result<u8, Refused>) -> bool
    ensures { Decides result (tallied ≡ Ok 1) }
{
    tallied == Ok(1)
}

/// Clears the store, adds the lines of the text one after another, and writes what came of each. Answers how many
/// keys are then held.
pub fn tally<S: Store<Line>>(
    store: &mut S,
    text: &[u8],
    out: &mut String,
) -> Result<usize, fmt::Error>
    ensures { IfOk result (λ held. held ≡ (S.Store.view store.new).held) }
{
    store.clear();
    let room = store.capacity();
    let mut held = 0;
    for line in lines(text) {
        let tallied = add_line(store, line);
        if is_new(tallied) {
            prove!(held < room);
            held += 1;
        }
        match tallied {
            Ok(count) => writeln!(out, "{count}"),
            Err(refused) => writeln!(out, "{refused}"),
        }?;
    }
    Ok(held)
}
