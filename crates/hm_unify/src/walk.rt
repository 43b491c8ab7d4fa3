//! The walk that binds variables, over types that are known to have a common instance.
ghost use Rattle.std.specs.Prelude.{◌≡◌, ℕ, ◌<◌, ◌≤◌, ◌^◌, length, slice_get, slice_set, Some};
ghost use Rattle.ml_types.specs.declared.node.TyId.{TyId};
ghost use Rattle.ml_types.specs.Types.{Tree, trees, tree_size, trees_size, parts_of};
ghost use Rattle.hm_unify.specs.Solutions.{Solves, Fits};
ghost use Rattle.hm_unify.specs.Closing.{PairsWithin};
ghost use Rattle.hm_unify.specs.States.{IsTabled};
ghost use Rattle.hm_unify.specs.Walks.{Walk, WalkAll, WalkPairs};

use crate::bound::{end_of, is_below};
use crate::node::{node, part, variable};
use ml_types::{TyId, TyNode};

/// Binds a free variable to the node that it met.
fn bind(bound: &mut [Option<TyId>], number: u32, id: TyId)
    requires { number < length bound.old }
    ensures { bound.new ≡ slice_set bound.old number (Some id) }
{
    bound[number as usize] = Some(id);
}

/// Makes two types equal that have a common instance of at most `most` nodes.
#[cycle(walking)]
pub fn walk(nodes: &[TyNode], bound: &mut [Option<TyId>], left: TyId, right: TyId, most: u64)
    requires tabled { IsTabled nodes.now bound.old }
    requires within_left { left.0 < length nodes.now }
    requires within_right { right.0 < length nodes.now }
    requires instance { (t : TyId → Tree) × Solves nodes.now bound.old t × (t left ≡ t right) × (tree_size (t left) ≤ most) }
    ensures walk { Walk nodes.now bound.old left right bound.new }
    ensures tabled { IsTabled nodes.now bound.new }
{
    let first = end_of(nodes, bound, left);
    let second = end_of(nodes, bound, right);
    if first == second {
        return;
    }
    let one = node(nodes, first);
    let other = node(nodes, second);
    let number = variable(one);
    let met = variable(other);
    match number {
        None => match met {
            None => {
                walk_parts(nodes, bound, one, other, most);
                return;
            }
            Some(high) => {
                bind(bound, high, first);
                return;
            }
        },
        Some(low) => match met {
            None => {
                bind(bound, low, second);
                return;
            }
            Some(high) => {
                if low == high {
                    return;
                }
                if is_below(low, high) {
                    bind(bound, low, second);
                    return;
                }
                bind(bound, high, first);
                return;
            }
        },
    }
}

/// Makes the parts of two nodes equal, from the left.
#[cycle(walking)]
fn walk_parts(
    nodes: &[TyNode],
    bound: &mut [Option<TyId>],
    left: &TyNode,
    right: &TyNode,
    most: u64,
)
    requires tabled { IsTabled nodes.now bound.old }
    requires within_left { (i : ℕ) (p : TyId) → slice_get (parts_of left.now) i ≡ Some p → p.0 < length nodes.now }
    requires within_right { (i : ℕ) (p : TyId) → slice_get (parts_of right.now) i ≡ Some p → p.0 < length nodes.now }
    requires instance { (t : TyId → Tree) × Solves nodes.now bound.old t × (trees t (parts_of left.now) ≡ trees t (parts_of right.now)) × (trees_size (trees t (parts_of left.now)) < most) }
    ensures walk { WalkAll nodes.now bound.old (parts_of left.now) (parts_of right.now) bound.new }
    ensures tabled { IsTabled nodes.now bound.new }
{
    for at in 0..most {
        let Some(first) = part(left, at as usize) else {
            return
        };
        let Some(second) = part(right, at as usize) else {
            return
        };
        walk(nodes, bound, first, second, most - 1);
    }
}

/// Makes the two of each pair equal, in order, where some solution gives no id of them more than
/// 2,000 nodes.
pub fn walk_pairs(nodes: &[TyNode], bound: &mut [Option<TyId>], pairs: &[(TyId, TyId)])
    requires tabled { IsTabled nodes.now bound.old }
    requires within { PairsWithin (length nodes.now) pairs.now }
    requires small { Fits nodes.now bound.old pairs.now }
    ensures walk { WalkPairs nodes.now bound.old pairs.now bound.new }
    ensures tabled { IsTabled nodes.now bound.new }
{
    for pair in pairs {
        walk(nodes, bound, pair.0, pair.1, 2000);
    }
}
