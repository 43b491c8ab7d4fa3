//! Bindings followed to their end.
ghost use Rattle.std.specs.Prelude.{◌≡◌, ℕ, ◌<◌, length, slice_index_or, IsTrue, ◌↔◌};
ghost use Rattle.hm_unify.specs.Solutions.{link, Ends};
ghost use Rattle.hm_unify.specs.States.{priority, rank, IsTabled};

use crate::node::{node, variable};
use ml_types::{TyId, TyNode};

/// A number for each variable, mixed so that neighbours are far apart (multiplicative hashing).
fn priority(number: u32) -> u32
    ensures { result ≡ priority number }
{
    number.wrapping_mul(2654435769)
}

/// Whether, where two free variables meet, the first is bound to the second. By a mixed order the
/// chains that come of it stay short in practice, and each chain rises in this order.
pub fn is_below(low: u32, high: u32) -> bool
    requires { low ≡ high → ⊥ }
    ensures below { IsTrue result → rank low < rank high }
    ensures above { (IsTrue result → ⊥) → rank high < rank low }
{
    let first = priority(low);
    let second = priority(high);
    first < second || (first == second && low < high)
}

/// The id to which the variable at `id` is bound.
pub fn target(nodes: &[TyNode], bound: &[Option<TyId>], id: TyId) -> Option<TyId>
    requires tabled { IsTabled nodes.now bound.now }
    requires within { id.0 < length nodes.now }
    ensures { result ≡ link nodes.now bound.now id }
{
    let number = variable(node(nodes, id))?;
    bound[number as usize]
}

/// The id at which the bindings end, followed from `id`.
pub fn end_of(nodes: &[TyNode], bound: &[Option<TyId>], id: TyId) -> TyId
    requires tabled { IsTabled nodes.now bound.now }
    requires within { id.0 < length nodes.now }
    ensures ends { Ends nodes.now bound.now id result }
    ensures inside { result.0 < length nodes.now }
{
    let mut at = id;
    while let Some(further) = target(nodes, bound, at) {
        at = further;
    }
    at
}
