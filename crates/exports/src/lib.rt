// What the benchmarks in bench/ call, with C's calling convention.
#![tactic(auto)]

use lines::Line;
use std::alloc::Global;
use store::{Node, Slot, Store, Table, Tree, nodes};

/// Adds each key of 64 bytes, then counts each, and answers the sum of the counts.
fn add_and_count<S: Store<Line>>(store: &mut S, keys: &[u8]) -> u64 {
    for key in keys.chunks_exact(64) {
        let _ = store.add(Line::from(key));
    }
    keys.chunks_exact(64)
        .map(|key| u64::from(store.count(&Line::from(key))))
        .fold(0, u64::wrapping_add)
}

#[unsafe(no_mangle)]
pub extern "C" fn table_of_lines(heap: Global, keys: &[u8], capacity: usize) -> u64 {
    nodes::<Slot<Line>>(heap, capacity).map_or(0, |mut nodes| {
        add_and_count(&mut Table::new(nodes.as_mut_slice()), keys)
    })
}

#[unsafe(no_mangle)]
pub extern "C" fn tree_of_lines(heap: Global, keys: &[u8], capacity: usize) -> u64 {
    nodes::<Node<Line>>(heap, capacity).map_or(0, |mut nodes| {
        add_and_count(&mut Tree::new(nodes.as_mut_slice()), keys)
    })
}
