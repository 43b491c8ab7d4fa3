//! Nodes of types and their parts.
ghost use Rattle.std.specs.Prelude.{◌≡◌, ℕ, ◌<◌, length, IsTrue, slice_get, Some};
ghost use Rattle.ml_types.specs.declared.node.TyId.{TyId};
ghost use Rattle.ml_types.specs.Types.{parts_of};
ghost use Rattle.hm_unify.specs.States.{PartsWithin};
ghost use Rattle.hm_unify.specs.Closing.{PairsWithin};

use ml_types::{TyId, TyNode};

/// Whether all ids of a list are among the first `count`.
fn all_within(parts: &[TyId], count: u64) -> bool
    ensures { IsTrue result → (i : ℕ) (p : TyId) → slice_get parts.now i ≡ Some p → p.0 < count }
{
    for part in parts {
        if part.0 as u64 >= count {
            return false;
        }
    }
    true
}

/// Whether the parts of a node are among the first `count` ids.
pub fn parts_within(node: &TyNode, count: u64) -> bool
    ensures { IsTrue result → PartsWithin count node.now }
{
    match node {
        TyNode::Var(_) => true,
        TyNode::Con(_, parts) => all_within(parts.as_slice(), count),
        TyNode::Tuple(parts) => all_within(parts.as_slice(), count),
        TyNode::Arrow { slot: _, from, to } => { (from.0 as u64) < count && (to.0 as u64) < count }
    }
}

/// Whether the ids of pairs are among the first `count`.
pub fn pairs_within(pairs: &[(TyId, TyId)], count: u64) -> bool
    ensures { IsTrue result → PairsWithin count pairs.now }
{
    for pair in pairs {
        if pair.0.0 as u64 >= count || pair.1.0 as u64 >= count {
            return false;
        }
    }
    true
}

/// The part of a node at this place, counted from 0; `None` past the last.
pub fn part(node: &TyNode, at: usize) -> Option<TyId>
    ensures { result ≡ slice_get (parts_of node.now) at }
{
    match node {
        TyNode::Var(_) => None,
        TyNode::Con(_, parts) => parts.get(at).copied(),
        TyNode::Tuple(parts) => parts.get(at).copied(),
        TyNode::Arrow { from, to, .. } => match at {
            0 => Some(*from),
            1 => Some(*to),
            _ => None,
        },
    }
}
