//! Whether the marks of a walk are all that there can be.
//!
//! Each node has a rank. Where no edge leads to a greater rank, the nodes of a cycle have one rank;
//! so where each node with an edge to its own rank is marked, each node on a cycle is.
ghost use Rattle.std.specs.Prelude.{◌≡◌, ◌<◌, ℕ, slice_get, slice_index_or, Some, true, IsTrue};
ghost use Rattle.graph_cycles.specs.Groups.{Fits, Certified};

use oxml_base::Items;

/// The rank of a node; 0 past the list.
fn rank(ranks: &[u32], node: u32) -> u32
    ensures { result ≡ slice_index_or ranks.now node 0 }
{
    if (node as usize) < ranks.len() {
        ranks[node as usize]
    } else {
        0
    }
}

/// Whether a node is marked.
fn is_marked(cyclic: &[bool], node: u32) -> bool
    ensures { IsTrue result → slice_get cyclic.now node ≡ Some true }
{
    (node as usize) < cyclic.len() && cyclic[node as usize]
}

/// Whether an edge leads to a smaller rank, or to its source's own where that is marked.
fn is_edge_certified(ranks: &[u32], cyclic: &[bool], from: u32, to: u32) -> bool
    ensures { IsTrue result → Fits ranks.now cyclic.now from to }
{
    let source = rank(ranks, from);
    let target = rank(ranks, to);
    target < source || (target == source && is_marked(cyclic, from))
}

/// The same of all edges of a node to one of so many nodes.
fn is_node_certified(
    count: usize,
    ranks: &[u32],
    cyclic: &[bool],
    from: u32,
    successors: &[u32],
) -> bool
    ensures { IsTrue result → (k b : ℕ) → slice_get successors.now k ≡ Some b → b < count → Fits ranks.now cyclic.now from b }
{
    for to in successors {
        if (*to as usize) < count && !is_edge_certified(ranks, cyclic, from, *to) {
            return false;
        }
    }
    true
}

/// Whether all edges between nodes are certified.
pub fn is_certified(graph: &[Items<u32>], ranks: &[u32], cyclic: &[bool]) -> bool
    ensures { IsTrue result → Certified graph.now ranks.now cyclic.now }
{
    let mut from: u32 = 0;
    for successors in graph {
        if !is_node_certified(graph.len(), ranks, cyclic, from, successors.as_slice()) {
            return false;
        }
        match from.checked_add(1) {
            Some(next) => from = next,
            None => return false,
        }
    }
    true
}
