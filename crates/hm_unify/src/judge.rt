//! Whether pairs have a solution, and of what kind.
ghost use Rattle.std.specs.Prelude.{◌≡◌, ℕ, ◌<◌, [], ◌∷◌, length, List, IfOk};
ghost use Rattle.std.specs.Bool.{MatchBool};
ghost use Rattle.ml_types.specs.declared.node.TyNode.{TyNode};
ghost use Rattle.hm_unify.specs.Solutions.{Bound, Pairs, NoFinite, HasFinite, IsFirstFault};
ghost use Rattle.hm_unify.specs.States.{IsTabled, IsSound};
ghost use Rattle.hm_unify.specs.Closing.{class_of, IsClosure, SomeClosure, PairsWithin};
ghost use Rattle.hm_unify.specs.Shapes.{IsMarked, FindsAll};
ghost use Rattle.hm_unify.specs.Verdicts.{Judged};

use crate::classes::Classes;
use crate::closure::{Closed, close};
use crate::measure::{Marks, measure};
use ml_types::{TyId, TyNode};
use oxml_base::NoMemory;
use std::alloc::Global;

/// What solutions pairs have.
#[derive(Clone, Copy, Debug, PartialEq, Eq)]
pub enum Verdict {
    /// None, even among infinite types.
    Clash,
    /// Only infinite ones.
    Cycle,
    /// A finite one, and each gives an id of the pairs more than 2,000 nodes.
    TooLarge,
    /// A finite one in which no id of the pairs has more than 2,000 nodes.
    Small,
}

/// The largest number of nodes, up to 2,001, of the ids of one pair; `None` where a class is a part
/// of itself.
fn larger(
    alloc: Global,
    nodes: &[TyNode],
    bound: &[Option<TyId>],
    classes: &Classes,
    marks: &mut Marks,
    first: TyId,
    second: TyId,
) -> Result<Option<u64>, NoMemory>
    requires tabled { IsTabled nodes.now bound.now }
    requires closure { SomeClosure nodes.now bound.now classes.now [] }
    requires within_first { first.0 < length nodes.now }
    requires within_second { second.0 < length nodes.now }
    ensures { IfOk result (λ size. (pairs seen : Pairs) (k : IsClosure nodes.now bound.now pairs classes.now [] seen) → IsMarked nodes.now (class_of nodes.now bound.now k.root_of) marks.old [] → FindsAll nodes.now bound.now pairs (class_of nodes.now bound.now k.root_of) ((first, second) ∷ []) marks.new size) }
{
    let one = measure(alloc, nodes, bound, classes, marks, first)?;
    let Some(left) = one else { return Ok(None) };
    let other = measure(alloc, nodes, bound, classes, marks, second)?;
    let Some(right) = other else { return Ok(None) };
    Ok(Some(left.max(right)))
}

/// The largest number of nodes, up to 2,001, of the ids of the pairs; `None` where a class is a part
/// of itself.
fn largest(
    alloc: Global,
    nodes: &[TyNode],
    bound: &[Option<TyId>],
    classes: &Classes,
    marks: &mut Marks,
    list: &[(TyId, TyId)],
) -> Result<Option<u64>, NoMemory>
    requires tabled { IsTabled nodes.now bound.now }
    requires closure { SomeClosure nodes.now bound.now classes.now [] }
    requires within { PairsWithin (length nodes.now) list.now }
    ensures { IfOk result (λ size. (pairs seen : Pairs) (k : IsClosure nodes.now bound.now pairs classes.now [] seen) → IsMarked nodes.now (class_of nodes.now bound.now k.root_of) marks.old [] → FindsAll nodes.now bound.now pairs (class_of nodes.now bound.now k.root_of) list.now marks.new size) }
{
    let mut size: u64 = 0;
    for pair in list {
        let found = larger(alloc, nodes, bound, classes, marks, pair.0, pair.1)?;
        let Some(more) = found else { return Ok(None) };
        size = size.max(more);
    }
    Ok(Some(size))
}

/// What solutions the pairs have over the bindings.
pub fn judge(
    alloc: Global,
    nodes: &[TyNode],
    bound: &[Option<TyId>],
    pairs: &[(TyId, TyId)],
) -> Result<Verdict, NoMemory>
    requires sound { IsSound nodes.now bound.now }
    requires within { PairsWithin (length nodes.now) pairs.now }
    ensures { IfOk result (λ verdict. Judged nodes.now bound.now pairs.now verdict) }
{
    let closed = close(alloc, nodes, bound, pairs)?;
    let Some(Closed { classes, seen }) = closed else {
        return Ok(Verdict::Clash);
    };
    let mut marks = Marks::new(alloc);
    let all = largest(alloc, nodes, bound, &classes, &mut marks, seen.as_slice())?;
    let Some(_all) = all else {
        return Ok(Verdict::Cycle)
    };
    let most = largest(alloc, nodes, bound, &classes, &mut marks, pairs)?;
    let Some(size) = most else {
        return Ok(Verdict::Cycle)
    };
    if size > 2000 {
        return Ok(Verdict::TooLarge);
    }
    Ok(Verdict::Small)
}

/// Whether there is no finite solution.
fn is_fault(verdict: Verdict) -> bool
    ensures { (nodes : List TyNode) (bound : Bound) (pairs : Pairs) → Judged nodes bound pairs verdict → MatchBool result (NoFinite nodes bound pairs) (HasFinite nodes bound pairs) }
{
    match verdict {
        Verdict::Clash => true,
        Verdict::Cycle => true,
        Verdict::TooLarge => false,
        Verdict::Small => false,
    }
}

/// The number of the first pair that, with those before it, leaves no finite solution.
pub fn first_fault(
    alloc: Global,
    nodes: &[TyNode],
    bound: &[Option<TyId>],
    pairs: &[(TyId, TyId)],
) -> Result<usize, NoMemory>
    requires sound { IsSound nodes.now bound.now }
    requires within { PairsWithin (length nodes.now) pairs.now }
    requires fault { NoFinite nodes.now bound.now pairs.now }
    ensures { IfOk result (λ k. IsFirstFault nodes.now bound.now pairs.now k) }
{
    let mut low = 0;
    let mut high = pairs.len();
    while high - low > 1 {
        let middle = low + (high - low) / 2;
        let front = &pairs[..middle];
        let verdict = judge(alloc, nodes, bound, front)?;
        if is_fault(verdict) {
            high = middle;
            continue;
        }
        low = middle;
    }
    Ok(low)
}
