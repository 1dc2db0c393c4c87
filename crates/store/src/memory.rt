// Nodes to lend to a store.
ghost use Rattle.std.specs.Prelude.{◌≡◌, IfOk, vec_len};

use std::alloc::{AllocError, Global};

/// So many nodes to lend to a store.
pub fn nodes<N: Default + Drop>(heap: Global, count: usize) -> Result<Vec<N>, AllocError>
    ensures { IfOk result (λ v. vec_len v ≡ count) }
{
    let mut nodes = Vec::with_capacity(heap, count)?;
    for _ in 0..count {
        nodes.push(N::default())?;
    }
    Ok(nodes)
}
