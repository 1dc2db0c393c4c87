// Counts the lines of standard input by their first 64 bytes, in a store of the make and the capacity that are named.
#![tactic(auto)]

use anyhow::{Result, anyhow, bail, ensure};
use lines::{Line, tally};
use std::alloc::Global;
use std::env;
use std::io::Read;
use std::str::FromStr;
use store::{Store, Table, Tree, nodes};

const USAGE: &str =
    "usage: tally MAKE CAPACITY .., where a MAKE is table or tree and a CAPACITY a number";

const NO_MEMORY: &str = "there is no memory for so many nodes";

#[derive(Clone, Copy)]
enum Make {
    Table,
    Tree,
}

impl FromStr for Make {
    type Err = anyhow::Error;

    fn from_str(word: &str) -> Result<Make> {
        match word {
            "table" => Ok(Make::Table),
            "tree" => Ok(Make::Tree),
            _ => bail!(USAGE),
        }
    }
}

/// A store that is asked for.
#[derive(Clone, Copy)]
struct Choice {
    make: Make,
    capacity: usize,
}

impl TryFrom<&[String]> for Choice {
    type Error = anyhow::Error;

    fn try_from(words: &[String]) -> Result<Choice> {
        let [make, capacity] = words else {
            bail!(USAGE);
        };
        Ok(Choice {
            make: make.as_str().parse()?,
            capacity: capacity.as_str().parse().map_err(|_| anyhow!(USAGE))?,
        })
    }
}

/// The stores that the arguments name, of which there is at least one.
fn choices(rt: &HostRuntime) -> Result<Vec<Choice>> {
    let heap = rt.alloc();
    let words: Vec<String> = env::args(rt)?.skip(1).collect(heap)?;
    ensure!(!words.is_empty(), USAGE);
    words
        .as_slice()
        .chunks(2)
        .map(Choice::try_from)
        .try_collect(heap)
}

/// So many nodes with no key.
fn free_nodes<N: Default + Drop>(heap: Global, count: usize) -> Result<Vec<N>> {
    nodes(heap, count).map_err(|_| anyhow!(NO_MEMORY))
}

/// Writes what came of each line of the text, and how many keys are then held.
fn write_tally<S: Store<Line>>(rt: &HostRuntime, store: &mut S, text: &[u8]) -> Result<()> {
    let mut out = String::new(rt.alloc());
    let held = tally(store, text, &mut out)?;
    rt.print(out.as_str())?;
    println!(rt; "held {held}")?;
    Ok(())
}

fn main(rt: HostRuntime) -> Result<()> {
    let heap = rt.alloc();
    let choices = choices(&rt)?;
    let mut text = Vec::new(heap);
    rt.stdin().read_to_end(&mut text)?;
    let text = text.as_slice();
    for &Choice { make, capacity } in &choices {
        match make {
            Make::Table => write_tally(
                &rt,
                &mut Table::new(free_nodes(heap, capacity)?.as_mut_slice()),
                text,
            )?,
            Make::Tree => write_tally(
                &rt,
                &mut Tree::new(free_nodes(heap, capacity)?.as_mut_slice()),
                text,
            )?,
        }
    }
    Ok(())
}
