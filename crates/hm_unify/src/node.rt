//! Nodes by their head and their parts, so that no other file looks at the kinds of nodes.
ghost use Rattle.std.specs.Prelude.{◌≡◌, ℕ, ◌<◌, ◌≤◌, ◌↔◌, length, IsTrue, Option, Some, None, slice_get, IfOk};
ghost use Rattle.ml_types.specs.Types.{head_of, parts_of};
ghost use Rattle.hm_unify.specs.Solutions.{variable_of};

use ml_types::{TyId, TyNode};
use oxml_base::{Items, NoMemory};
use std::alloc::Global;

/// The node at an id.
pub fn node(nodes: &[TyNode], id: TyId) -> &TyNode
    requires { id.0 < length nodes.now }
    ensures { slice_get nodes.now id.0 ≡ Some result.now }
{
    &nodes[id.0 as usize]
}

/// The number of a variable; `None` for any other node.
pub fn variable(node: &TyNode) -> Option<u32>
    ensures { result ≡ variable_of node.now }
{
    match node {
        TyNode::Var(number) => Some(*number),
        _ => None,
    }
}

/// Whether two nodes have one head: neither is a variable, and kind, declaration and number of parts
/// are the same. The slots of arrows do not count.
pub fn same_head(left: &TyNode, right: &TyNode) -> bool
    requires l { variable_of left.now ≡ None }
    requires r { variable_of right.now ≡ None }
    ensures { IsTrue result ↔ (head_of left.now ≡ head_of right.now) }
{
    match left {
        TyNode::Var(_) => false,
        TyNode::Con(declaration, parts) => match right {
            TyNode::Con(other, others) => *declaration == *other && parts.len() == others.len(),
            _ => false,
        },
        TyNode::Tuple(parts) => match right {
            TyNode::Tuple(others) => parts.len() == others.len(),
            _ => false,
        },
        TyNode::Arrow { .. } => match right {
            TyNode::Arrow { .. } => true,
            _ => false,
        },
    }
}

/// The part of a node at this place, counted from 0; `None` past the last.
pub fn part(node: &TyNode, at: usize) -> Option<TyId>
    ensures { result ≡ slice_get (parts_of node.now) at }
{
    match node {
        TyNode::Var(_) => None,
        TyNode::Con(_, parts) => parts.get(at).copied(),
        TyNode::Tuple(parts) => parts.get(at).copied(),
        TyNode::Arrow { from, to, .. } => match at {
            0 => Some(*from),
            1 => Some(*to),
            _ => None,
        },
    }
}

/// A node equal to another, the slot of an arrow too.
pub fn copy_of(alloc: Global, node: &TyNode) -> Result<TyNode, NoMemory>
    ensures { IfOk result (λ n. n ≡ node.now) }
{
    Ok(match node {
        TyNode::Var(number) => TyNode::Var(*number),
        TyNode::Con(declaration, parts) => {
            TyNode::Con(*declaration, Items::from_slice(alloc, parts.as_slice())?)
        }
        TyNode::Tuple(parts) => TyNode::Tuple(Items::from_slice(alloc, parts.as_slice())?),
        TyNode::Arrow { slot, from, to } => TyNode::Arrow {
            slot: *slot,
            from: *from,
            to: *to,
        },
    })
}
