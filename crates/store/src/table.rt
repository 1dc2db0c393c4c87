// A hash table with open addressing, over nodes that the caller lends.
ghost use Rattle.std.specs.Prelude.{◌≡◌, ℕ, ◌<◌, length, None, slice_index_or};
ghost use Rattle.store.specs.Views.{Empty};
ghost use Rattle.store.specs.Cells.{held_in, seen};
ghost use Rattle.store.specs.Probes.{place, Sound, Finds};

use crate::store::{Entry, Found, Refused, Store};
use keys::{Key, SpreadKey};
use std::marker::Model;

/// A key with its count, and the generation that it was added in.
#[derive(Drop)]
pub struct Held<K> {
    pub entry: Entry<K>,
    pub generation: u32,
}

/// A node of a table.
pub type Slot<K> = Option<Held<K>>;

/// A hash table over lent nodes. Those of earlier generations count as free. A clause sees what each node stands for.
#[derive(Drop)]
pub struct Table<'a, K: SpreadKey> {
    nodes: &'a mut [Slot<K>],
    generation: u32,
    held: usize,
}

impl<'a, K: SpreadKey> Model for Table<'a, K> {
    ghost use Rattle.std.specs.Prelude.{List};
    ghost use Rattle.store.specs.Cells.{Cell};
    ghost use Rattle.store.specs.Probes.{cells, Marked, Sound};

    ghost Value = { List (Cell K) };

    ghost view = { λ t. cells t.generation t.nodes.now };

    ghost invariant = { λ t. Marked t.generation t.nodes.now × Sound K.Key.equals K.SpreadKey.spreads (cells t.generation t.nodes.now) t.held };
}

// Frees the nodes.
fn vacate<K: Drop>(nodes: &mut [Slot<K>])
    ensures size { length nodes.new ≡ length nodes.old }
    ensures free { (i : ℕ) → i < length nodes.new → slice_index_or nodes.new i None ≡ None }
{
    for node in nodes.iter_mut() {
        if node.is_some() {
            *node = None;
        }
    }
}

impl<'a, K: SpreadKey + Drop> Table<'a, K> {
    /// A table with no key. The nodes may be in any state.
    pub fn new(nodes: &'a mut [Slot<K>]) -> Table<'a, K>
        ensures sound { Sound K.Key.equals K.SpreadKey.spreads result (held_in result) }
        ensures empty { Empty (length nodes.old) (seen K.Key.equals result) }
    {
        vacate(nodes);
        Table {
            nodes,
            generation: 0,
            held: 0,
        }
    }
}

// The place that is `d` steps after `home`, in a ring of `n`.
fn place(n: usize, home: usize, d: usize) -> usize
    requires start { home < n }
    requires step { d < n }
    ensures value { result ≡ place n home d }
    ensures below { result < n }
{
    let to_end = n - home;
    if d < to_end { home + d } else { d - to_end }
}

impl<K: SpreadKey> Table<'_, K> {
    fn find(&self, key: &K) -> Found<usize>
        ensures sound { Sound K.Key.equals K.SpreadKey.spreads self.now (held_in self.now) }
        ensures finds { Finds K.Key.equals K.SpreadKey.spreads (length self.now) self.now key.now result }
    {
        let nodes = &*self.nodes;
        let n = nodes.len();
        if n == 0 {
            return Found::Nowhere;
        }
        let home = (key.spread() % n as u64) as usize;
        for d in 0..n {
            let i = place(n, home, d);
            match &nodes[i] {
                Some(held) if held.generation == self.generation => {
                    if held.entry.key.same(key) {
                        return Found::At(i, held.entry.count);
                    }
                }
                _ => {
                    return Found::Open(i);
                }
            }
        }
        Found::Nowhere
    }
}

impl<'a, K: SpreadKey + Drop> Store<K> for Table<'a, K> {
    ghost view = { λ cs. seen K.Key.equals cs };

    // Clauses see the cells alone; this call tells what they keep, at any time.
    fn capacity(&self) -> usize
        ensures room { result ≡ (seen K.Key.equals self.now).capacity }
        ensures sound { Sound K.Key.equals K.SpreadKey.spreads self.now (held_in self.now) }
    {
        self.nodes.len()
    }

    fn count(&mut self, key: &K) -> u8 {
        self.find(key).count()
    }

    fn add(&mut self, key: K) -> Result<(), Refused> {
        match self.find(&key) {
            Found::At(i, _) => self.nodes[i].as_mut().unwrap().entry.raise(),
            Found::Open(i) => {
                self.nodes[i] = Some(Held {
                    entry: Entry { key, count: 1 },
                    generation: self.generation,
                });
                self.held += 1;
                Ok(())
            }
            Found::Nowhere => Err(Refused::Full),
        }
    }

    fn clear(&mut self) {
        self.held = 0;
        if self.generation < u32::MAX {
            self.generation += 1;
            return;
        }
        vacate(self.nodes);
        self.generation = 0;
    }
}
