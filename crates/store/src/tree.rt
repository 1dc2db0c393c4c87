// A binary search tree, over nodes that the caller lends.
ghost use Rattle.std.specs.Prelude.{◌≡◌, ℕ, ◌<◌, length, None, false, is_some, not, position};
ghost use Rattle.store.specs.Views.{Empty};
ghost use Rattle.store.specs.Cells.{held_in, seen};
ghost use Rattle.store.specs.Trees.{cells, taken, follow, Grown, Seeks, Spares};

use crate::store::{Entry, Found, Refused, Store};
use keys::{Key, OrderedKey};
use std::cmp::Ordering;
use std::marker::Model;

/// A node of a tree: a key with its count, if any, and the nodes below it, the lesser keys left and the greater right.
// The links come first, since a walk reads them and the first words of a key from one line of the cache.
#[derive(Drop)]
pub struct Node<K> {
    pub left: Option<usize>,
    pub right: Option<usize>,
    pub entry: Option<Entry<K>>,
}

// A node with no key. A derived `Default` would ask for a default key.
impl<K> Default for Node<K> {
    ghost is_default = { λ n. n ≡ record { entry = None; left = None; right = None } };

    fn default() -> Node<K> {
        Node {
            entry: None,
            left: None,
            right: None,
        }
    }
}

// A link of a tree.
#[derive(Clone, Copy)]
enum Spot {
    Root,
    Left(usize),
    Right(usize),
}

/// A search tree over lent nodes. A clause sees the root and the nodes.
// The next free node is looked for from `next` on.
#[derive(Drop)]
pub struct Tree<'a, K: OrderedKey> {
    nodes: &'a mut [Node<K>],
    root: Option<usize>,
    held: usize,
    next: usize,
}

impl<'a, K: OrderedKey> Model for Tree<'a, K> {
    ghost use Rattle.std.specs.Prelude.{ℕ, ◌≤◌, List, Option, length};
    ghost use Rattle.store.specs.declared.tree.Node.{Node};
    ghost use Rattle.store.specs.Trees.{follow, Grown};

    ghost Value = { Option ℕ × List (Node K) };

    ghost view = { λ t. (t.root, t.nodes.now) };

    ghost invariant = { λ t. Grown K.Key.equals K.OrderedKey.orders t.nodes.now (follow t.nodes.now t.root) t.held × (t.next ≤ length t.nodes.now) };
}

// Frees the nodes, with whatever links they have.
fn vacate<K: Drop>(nodes: &mut [Node<K>])
    ensures size { length nodes.new ≡ length nodes.old }
    ensures free { (i : ℕ) → i < length nodes.new → taken nodes.new i ≡ false }
{
    for node in nodes.iter_mut() {
        if node.entry.is_some() {
            node.entry = None;
        }
    }
}

impl<'a, K: OrderedKey + Drop> Tree<'a, K> {
    /// A tree with no key. The nodes may be in any state.
    pub fn new(nodes: &'a mut [Node<K>]) -> Tree<'a, K>
        ensures grown { Grown K.Key.equals K.OrderedKey.orders result.1 (follow result.1 result.0) (held_in (cells result.1)) }
        ensures empty { Empty (length nodes.old) (seen K.Key.equals (cells result.1)) }
    {
        vacate(nodes);
        Tree {
            nodes,
            root: None,
            held: 0,
            next: 0,
        }
    }
}

fn first_free<K>(nodes: &[Node<K>]) -> Option<usize>
    ensures { result ≡ position (λ n. not (is_some n.entry)) nodes.now }
{
    nodes.iter().position(|node| node.entry.is_none())
}

impl<K: OrderedKey> Tree<'_, K> {
    fn seek(&self, key: &K) -> Found<Spot>
        ensures grown { Grown K.Key.equals K.OrderedKey.orders self.now.1 (follow self.now.1 self.now.0) (held_in (cells self.now.1)) }
        ensures seeks { Seeks K.Key.equals K.OrderedKey.orders self.now.1 (follow self.now.1 self.now.0) key.now result }
    {
        let mut link = self.root;
        let mut spot = Spot::Root;
        for _ in 0..self.nodes.len() {
            let Some(i) = link else {
                return Found::Open(spot);
            };
            let Some(node) = self.nodes.get(i) else {
                return Found::Open(spot);
            };
            let Some(entry) = &node.entry else {
                return Found::Open(spot);
            };
            match key.compare(&entry.key) {
                Ordering::Less => {
                    spot = Spot::Left(i);
                    link = node.left;
                }
                Ordering::Equal => {
                    return Found::At(i, entry.count);
                }
                Ordering::Greater => {
                    spot = Spot::Right(i);
                    link = node.right;
                }
            }
        }
        Found::Nowhere
    }

    // A free node, if there is one, from `next` on or else from the first.
    fn spare(&self) -> Option<usize>
        ensures { Spares self.now.1 result }
    {
        let next = self.next;
        first_free(&self.nodes[next..])
            .map(|d| next + d)
            .or_else(|| first_free(self.nodes))
    }
}

impl<'a, K: OrderedKey + Drop> Store<K> for Tree<'a, K> {
    ghost view = { λ t. seen K.Key.equals (cells t.1) };

    // Clauses see the root and the nodes alone; this call tells what they keep, at any time.
    fn capacity(&self) -> usize
        ensures room { result ≡ (seen K.Key.equals (cells self.now.1)).capacity }
        ensures grown { Grown K.Key.equals K.OrderedKey.orders self.now.1 (follow self.now.1 self.now.0) (held_in (cells self.now.1)) }
    {
        self.nodes.len()
    }

    fn count(&mut self, key: &K) -> u8 {
        self.seek(key).count()
    }

    fn add(&mut self, key: K) -> Result<(), Refused> {
        match self.seek(&key) {
            Found::At(i, _) => self.nodes[i].entry.as_mut().unwrap().raise(),
            Found::Open(spot) => {
                let i = self.spare().ok_or(Refused::Full)?;
                self.nodes[i] = Node {
                    entry: Some(Entry { key, count: 1 }),
                    ..Node::default()
                };
                self.held += 1;
                match spot {
                    Spot::Root => self.root = Some(i),
                    Spot::Left(p) => self.nodes[p].left = Some(i),
                    Spot::Right(p) => self.nodes[p].right = Some(i),
                }
                self.next = i + 1;
                Ok(())
            }
            Found::Nowhere => Err(Refused::Full),
        }
    }

    fn clear(&mut self) {
        vacate(self.nodes);
        self.root = None;
        self.held = 0;
        self.next = 0;
    }
}
