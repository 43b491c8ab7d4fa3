//! The nodes of a graph that lie on a cycle.
ghost use Rattle.std.specs.Prelude.{◌≡◌, ◌↔◌, ℕ, slice_get, Some, true, IfOk};
ghost use Rattle.graph_cycles.specs.Paths.{Path};
ghost use Rattle.graph_cycles.specs.Groups.{Sound};

use crate::certificate::is_certified;
use crate::walk::Walk;
use oxml_base::{Items, NoMemory};
use std::alloc::Global;

/// How many steps a walk over a graph takes at most: one for each node and one for each edge.
fn steps(graph: &[Items<u32>]) -> usize {
    let mut count = graph.len();
    for successors in graph {
        count = count.saturating_add(successors.len());
    }
    count
}

/// A walk over all of a graph.
fn walked(alloc: Global, graph: &[Items<u32>]) -> Result<Walk, NoMemory>
    ensures { IfOk result (λ walk. Sound graph.now walk.cyclic.items) }
{
    let mut walk = Walk::new(alloc, graph.len())?;
    let Ok(count) = u32::try_from(graph.len()) else {
        return Err(NoMemory)
    };
    let most = steps(graph);
    for root in 0..count {
        walk.explore(graph, root, most)?;
    }
    Ok(walk)
}

/// Which nodes of a graph lead to themselves by one edge or several. The graph is the list of each
/// node's successors; a successor that is no node leads nowhere. Takes time in proportion to the
/// number of nodes and edges.
pub fn on_cycles(alloc: Global, graph: &[Items<u32>]) -> Result<Vec<bool>, NoMemory>
    ensures { IfOk result (λ marks. (v : ℕ) → (slice_get marks.items v ≡ Some true) ↔ Path graph.now v v) }
{
    let walk = walked(alloc, graph)?;
    if is_certified(graph, walk.ranks.as_slice(), walk.cyclic.as_slice()) {
        let Walk { cyclic, .. } = walk;
        Ok(cyclic)
    } else {
        Err(NoMemory)
    }
}
