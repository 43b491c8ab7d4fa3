//! Tables of nodes and of bound variables.
ghost use Rattle.std.specs.Prelude.{◌≡◌, ℕ, ◌<◌, ◌≤◌, ◌^◌, length, min, IfOk, OnOk, None, Some, slice_get, slice_index_or, vec_len};
ghost use Rattle.ml_types.specs.declared.node.TyId.{TyId};
ghost use Rattle.ml_types.specs.declared.node.TyNode.{TyNode};
ghost use Rattle.ml_types.specs.Types.{Tree, tree_size};
ghost use Rattle.hm_unify.specs.Solutions.{Stands, Ends, node_at, variable_of};
ghost use Rattle.hm_unify.specs.States.{IsTabled, IsTableOf};

use crate::bound::end_of;
use crate::node::{copy_of, node, part, variable};
use ml_types::{TyId, TyNode};
use oxml_base::{Items, NoMemory};
use std::alloc::Global;

/// Makes room for the variable of a node. The map is the same, also where memory runs out.
pub fn cover(bound: &mut Vec<Option<TyId>>, node: &TyNode) -> Result<(), NoMemory>
    ensures same { (n : ℕ) → slice_index_or bound.new.items n None ≡ slice_index_or bound.old.items n None }
    ensures longer { length bound.old.items ≤ length bound.new.items }
    ensures covers { OnOk result ((n : ℕ) → variable_of node.now ≡ Some n → n < length bound.new.items) }
{
    let Some(number) = variable(node) else {
        return Ok(())
    };
    for _at in bound.len()..number as usize + 1 {
        bound.push(None)?;
    }
    Ok(())
}

/// A map in which no variable of the nodes is bound.
pub fn covering(alloc: Global, nodes: &[TyNode]) -> Result<Vec<Option<TyId>>, NoMemory>
    ensures free { IfOk result (λ b. (n : ℕ) → slice_index_or b.items n None ≡ None) }
    ensures covers { IfOk result (λ b. (i : ℕ) (k : TyNode) (n : ℕ) → slice_get nodes.now i ≡ Some k → variable_of k ≡ Some n → n < length b.items) }
{
    let mut bound = Vec::new(alloc);
    for at in 0..nodes.len() {
        let node = &nodes[at];
        cover(&mut bound, node)?;
    }
    Ok(bound)
}

/// How many nodes the type of an id has as a tree, counted up to `most`.
pub fn size_within(nodes: &[TyNode], bound: &[Option<TyId>], id: TyId, most: u64) -> u64
    requires tabled { IsTabled nodes.now bound.now }
    requires within { id.0 < length nodes.now }
    ensures value { (t : Tree) → Stands nodes.now bound.now id t → result ≡ min (tree_size t) most }
    ensures most { result ≤ most }
    ensures some { 0 < most → 0 < result }
{
    if most == 0 {
        return 0;
    }
    let top = node(nodes, end_of(nodes, bound, id));
    let mut count = 1;
    for at in 0..most {
        if count == most {
            return most;
        }
        let Some(inner) = part(top, at as usize) else {
            return count
        };
        count += size_within(nodes, bound, inner, most - count);
    }
    count
}

/// The table in which each id has the node that stands for it.
pub fn heads(
    alloc: Global,
    nodes: &[TyNode],
    bound: &[Option<TyId>],
) -> Result<Items<TyNode>, NoMemory>
    requires tabled { IsTabled nodes.now bound.now }
    ensures { IfOk result (λ t. IsTableOf (record { nodes = nodes.now; bound = bound.now }) t) }
{
    let mut table = Items::new(alloc);
    for at in 0..nodes.len() {
        // A table has at most 2^32 nodes.
        let Ok(id) = u32::try_from(at) else {
            return Err(NoMemory)
        };
        let last = end_of(nodes, bound, TyId(id));
        table.push(copy_of(alloc, node(nodes, last))?)?;
    }
    Ok(table)
}
