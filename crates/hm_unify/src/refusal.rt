ghost use Rattle.std.specs.Prelude.{length, MatchOption};
ghost use Rattle.hm_unify.specs.Solutions.{Fits};
ghost use Rattle.hm_unify.specs.States.{IsSound, Refused};
ghost use Rattle.hm_unify.specs.Closing.{PairsWithin};

use crate::error::UnifyErr;
use crate::judge::{Verdict, first_fault, judge};
use ml_types::{TyId, TyNode};
use std::alloc::Global;

/// Why the pairs are not made equal; `None` where they have a finite solution that is small enough.
pub fn refusal(
    alloc: Global,
    nodes: &[TyNode],
    bound: &[Option<TyId>],
    pairs: &[(TyId, TyId)],
) -> Option<UnifyErr>
    requires sound { IsSound nodes.now bound.now }
    requires within { PairsWithin (length nodes.now) pairs.now }
    ensures { MatchOption result (Fits nodes.now bound.now pairs.now) (λ e. Refused (record { nodes = nodes.now; bound = bound.now }) pairs.now e) }
{
    let Ok(verdict) = judge(alloc, nodes, bound, pairs) else {
        return Some(UnifyErr::NoMemory)
    };
    match verdict {
        Verdict::Clash => {
            let Ok(at) = first_fault(alloc, nodes, bound, pairs) else {
                return Some(UnifyErr::NoMemory);
            };
            // A call has fewer than 2^32 pairs.
            let Ok(number) = u32::try_from(at) else {
                return Some(UnifyErr::NoMemory)
            };
            Some(UnifyErr::Clash(number))
        }
        Verdict::Cycle => {
            let Ok(at) = first_fault(alloc, nodes, bound, pairs) else {
                return Some(UnifyErr::NoMemory);
            };
            let Ok(number) = u32::try_from(at) else {
                return Some(UnifyErr::NoMemory)
            };
            Some(UnifyErr::Cycle(number))
        }
        Verdict::TooLarge => Some(UnifyErr::TooLarge(2001)),
        Verdict::Small => None,
    }
}
