// Stores that count keys: one meaning, and two makes of it, a hash table and an ordered tree.
#![tactic(auto)]

mod memory;
mod store;
mod table;
mod tree;

pub use keys::{Key, OrderedKey, SpreadKey};
pub use memory::nodes;
pub use store::{Entry, Refused, Store};
pub use table::{Held, Slot, Table};
pub use tree::{Node, Tree};

#[cfg(test)]
mod tests;
