//! The children of each node, as linked lists through the nodes.

ghost use Rattle.std.specs.Prelude.{◌≡◌, ℕ, ◌<◌, length, get_or, replicate, IfOk};
ghost use Rattle.adf_repack.specs.Families.{AreParents, children_of, IsChain};

use layout_lint::NodePlace;
use std::alloc::{AllocError, Global};

/// The children of each node in their order: the first child of the node, the next child of its parent, and how many
/// children it has.
///
/// The root is a child of none, so its number, 0, stands for none.
#[derive(Drop)]
pub struct Families {
    pub first: Vec<u64>,
    pub next: Vec<u64>,
    pub count: Vec<u64>,
}

/// The children of these nodes, of which the first is the root.
pub fn families_of(alloc: Global, nodes: &[NodePlace]) -> Result<Families, AllocError>
    requires { AreParents nodes.now }
    ensures sizes { IfOk result (λ f. (length f.first.items ≡ length nodes.now)
        × (length f.next.items ≡ length nodes.now) × (length f.count.items ≡ length nodes.now)) }
    ensures lists { IfOk result (λ f. (k : ℕ) → k < length nodes.now
        → IsChain f.next.items (get_or f.first.items k 0) (children_of nodes.now k)) }
    ensures counts { IfOk result (λ f. (k : ℕ) → k < length nodes.now
        → get_or f.count.items k 0 ≡ length (children_of nodes.now k)) }
{
    let total = nodes.len();
    let mut first = zeros(alloc, total)?;
    let mut next = zeros(alloc, total)?;
    let mut count = zeros(alloc, total)?;
    let mut number = total;
    while number > 1 {
        number -= 1;
        let parent = nodes[number].parent as usize;
        next[number] = first[parent];
        first[parent] = number as u64;
        count[parent] += 1;
    }
    Ok(Families { first, next, count })
}

// So many zeros.
fn zeros(alloc: Global, count: usize) -> Result<Vec<u64>, AllocError>
    ensures { IfOk result (λ zeros. zeros.items ≡ replicate count 0) }
{
    let mut zeros = Vec::new(alloc);
    zeros.resize(count, 0)?;
    Ok(zeros)
}
