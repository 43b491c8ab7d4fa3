//! Sets of pairs with what they come to, worked out by hand.
ghost use Rattle.std.specs.Prelude.{◌≡◌, ℕ, ◌<◌, [], Some, length, slice_get, IfOk};
ghost use Rattle.ml_types.specs.declared.node.TyId.{TyId};
ghost use Rattle.hm_unify.specs.States.{State, PartsWithin};

use crate::{Bindings, UnifyErr};
use ml_types::{TyId, TyNode, TyTable};
use oxml_base::{Items, NoMemory};
use std::alloc::Global;
use std::test::Fail;

/// A node to add: a variable, a declaration with no, one or two arguments, a product or an arrow.
#[derive(Clone, Copy)]
enum Make {
    Variable(u32),
    Plain(u32),
    Of(u32, u32),
    Both(u32, u32, u32),
    Product(u32, u32),
    Triple(u32, u32, u32),
    Arrow(u32, u32, u32),
}

/// Nodes 0 to 4 are variables, 5 is int and 6 is char.
const NODES: [Make; 24] = [
    Make::Variable(0),
    Make::Variable(1),
    Make::Variable(2),
    Make::Variable(3),
    Make::Variable(4),
    Make::Plain(0),
    Make::Plain(1),
    Make::Of(5, 0),
    Make::Of(5, 1),
    Make::Of(5, 5),
    Make::Of(5, 6),
    Make::Product(0, 1),
    Make::Product(5, 6),
    Make::Arrow(0, 0, 1),
    Make::Arrow(1, 5, 6),
    Make::Triple(0, 1, 2),
    Make::Of(5, 7),
    Make::Arrow(2, 1, 0),
    Make::Of(6, 0),
    Make::Arrow(3, 13, 2),
    Make::Variable(0),
    Make::Product(1, 1),
    Make::Both(7, 0, 1),
    Make::Both(7, 5, 6),
];

const CLASH0: Result<(), UnifyErr> = Err(UnifyErr::Clash(0));

const CLASH1: Result<(), UnifyErr> = Err(UnifyErr::Clash(1));

const CLASH2: Result<(), UnifyErr> = Err(UnifyErr::Clash(2));

const CYCLE0: Result<(), UnifyErr> = Err(UnifyErr::Cycle(0));

const CYCLE1: Result<(), UnifyErr> = Err(UnifyErr::Cycle(1));

const CYCLE2: Result<(), UnifyErr> = Err(UnifyErr::Cycle(2));

/// Three pairs of ids each.
const CASES: [([(u32, u32); 3], Result<(), UnifyErr>); 42] = [
    ([(5, 6), (0, 0), (0, 0)], CLASH0),
    ([(0, 7), (0, 0), (0, 0)], CYCLE0),
    ([(0, 0), (1, 1), (5, 5)], Ok(())),
    ([(0, 5), (1, 6), (0, 1)], CLASH2),
    ([(0, 5), (1, 5), (0, 1)], Ok(())),
    ([(0, 1), (1, 2), (2, 3)], Ok(())),
    ([(0, 1), (1, 7), (2, 2)], CYCLE1),
    ([(7, 9), (0, 5), (1, 1)], Ok(())),
    ([(7, 9), (0, 6), (1, 1)], CLASH1),
    ([(7, 8), (0, 5), (1, 6)], CLASH2),
    ([(9, 10), (0, 0), (0, 0)], CLASH0),
    ([(11, 12), (0, 5), (1, 6)], Ok(())),
    ([(11, 12), (0, 6), (1, 6)], CLASH1),
    ([(11, 21), (0, 5), (1, 6)], CLASH2),
    ([(11, 15), (0, 0), (0, 0)], CLASH0),
    ([(13, 14), (0, 5), (1, 6)], Ok(())),
    ([(13, 14), (0, 1), (2, 2)], CLASH1),
    ([(13, 17), (0, 1), (2, 2)], Ok(())),
    ([(13, 17), (0, 5), (1, 6)], CLASH2),
    ([(13, 11), (0, 0), (0, 0)], CLASH0),
    ([(7, 18), (0, 0), (0, 0)], CLASH0),
    ([(2, 7), (2, 18), (0, 0)], CLASH1),
    ([(0, 16), (0, 0), (0, 0)], CYCLE0),
    ([(0, 8), (1, 7), (2, 2)], CYCLE1),
    ([(0, 8), (1, 7), (5, 6)], CLASH1),
    ([(0, 7), (5, 6), (0, 0)], CLASH0),
    ([(5, 6), (0, 7), (0, 0)], CLASH0),
    ([(2, 2), (0, 7), (5, 6)], CLASH1),
    ([(0, 11), (0, 0), (0, 0)], CYCLE0),
    ([(2, 11), (2, 12), (0, 1)], CLASH2),
    ([(2, 11), (2, 12), (0, 5)], Ok(())),
    ([(2, 13), (2, 14), (3, 2)], Ok(())),
    ([(2, 19), (0, 0), (0, 0)], CYCLE0),
    ([(20, 5), (0, 6), (1, 1)], CLASH1),
    ([(20, 5), (0, 5), (1, 1)], Ok(())),
    ([(20, 7), (1, 1), (2, 2)], CYCLE0),
    ([(22, 23), (0, 5), (1, 6)], Ok(())),
    ([(22, 23), (0, 1), (2, 2)], CLASH1),
    ([(22, 11), (0, 0), (0, 0)], CLASH0),
    ([(16, 7), (0, 0), (0, 0)], CYCLE0),
    ([(16, 8), (1, 1), (0, 5)], Ok(())),
    ([(1, 8), (2, 2), (5, 5)], CYCLE0),
];

/// The node, if its parts are among the first `count`.
fn node_of(alloc: Global, make: Make, count: u32) -> Result<TyNode, NoMemory>
    ensures { IfOk result (λ n. PartsWithin count n) }
{
    match make {
        Make::Variable(number) => Ok(TyNode::Var(number)),
        Make::Plain(declaration) => Ok(TyNode::Con(declaration, Items::new(alloc))),
        Make::Of(declaration, part) => {
            let parts = listed(alloc, &[TyId(part)], count)?;
            Ok(TyNode::Con(declaration, parts))
        }
        Make::Both(declaration, first, second) => {
            let parts = listed(alloc, &[TyId(first), TyId(second)], count)?;
            Ok(TyNode::Con(declaration, parts))
        }
        Make::Product(first, second) => {
            let parts = listed(alloc, &[TyId(first), TyId(second)], count)?;
            Ok(TyNode::Tuple(parts))
        }
        Make::Triple(first, second, third) => {
            let parts = listed(alloc, &[TyId(first), TyId(second), TyId(third)], count)?;
            Ok(TyNode::Tuple(parts))
        }
        Make::Arrow(slot, from, to) => {
            if from < count && to < count {
                Ok(TyNode::Arrow {
                    slot,
                    from: TyId(from),
                    to: TyId(to),
                })
            } else {
                Err(NoMemory)
            }
        }
    }
}

/// A list of parts, if they are among the first `count`.
fn listed(alloc: Global, parts: &[TyId], count: u32) -> Result<Items<TyId>, NoMemory>
    ensures { IfOk result (λ xs. (i : ℕ) (p : TyId) → slice_get xs i ≡ Some p → p.0 < count) }
{
    for at in 0..parts.len() {
        if parts[at].0 >= count {
            return Err(NoMemory);
        }
    }
    Ok(Items::from_slice(alloc, parts)?)
}

/// Bindings with one node more; the answer is how many there are.
fn put(alloc: Global, bindings: &mut Bindings, count: u32, make: Make) -> Result<u32, NoMemory>
    requires { length bindings.old.nodes ≡ count }
    ensures { IfOk result (λ more. length bindings.new.nodes ≡ more) }
{
    let node = node_of(alloc, make, count)?;
    let id = bindings.add(node)?;
    id.0.checked_add(1).ok_or(NoMemory)
}

/// Bindings with no node.
fn empty(alloc: Global) -> Result<Bindings, NoMemory>
    ensures { IfOk result (λ b. b.nodes ≡ []) }
{
    let nodes = Items::new(alloc);
    Bindings::new(alloc, TyTable { nodes })
}

/// Bindings with the nodes above, and how many there are.
fn fixture(alloc: Global) -> Result<(Bindings, u32), NoMemory>
    ensures { IfOk result (λ r. length r.0.nodes ≡ r.1) }
{
    let mut bindings = empty(alloc)?;
    let mut count = 0;
    for at in 0..NODES.len() {
        count = put(alloc, &mut bindings, count, NODES[at])?;
    }
    Ok((bindings, count))
}

/// What three pairs come to.
fn outcome(alloc: Global, pairs: [(u32, u32); 3]) -> Result<Result<(), UnifyErr>, NoMemory> {
    let (mut bindings, count) = fixture(alloc)?;
    let [(a, b), (c, d), (e, f)] = pairs;
    if a < count && b < count && c < count && d < count && e < count && f < count {
        let list = [(TyId(a), TyId(b)), (TyId(c), TyId(d)), (TyId(e), TyId(f))];
        Ok(bindings.equate(&list))
    } else {
        Err(NoMemory)
    }
}

#[test]
fn sets_of_pairs(rt: HostRuntime) -> Result<(), Fail> {
    for (pairs, want) in CASES {
        assert_eq!(rt; outcome(rt.alloc(), pairs)?, want, "{pairs:?}");
    }
    Ok(())
}

#[test]
fn unchanged_after_refusals(rt: HostRuntime) -> Result<(), Fail> {
    let mut bindings = empty(rt.alloc())?;
    let variable = bindings.fresh()?;
    let parts = Items::from_slice(rt.alloc(), &[variable])?;
    let count = variable.0;
    assert!(rt; count == 0);
    let list = bindings.add(TyNode::Con(5, parts))?;
    assert!(rt; list.0 == 1);
    assert_eq!(rt;
        bindings.equate(&[(variable, list)]),
        Err(UnifyErr::Cycle(0))
    );
    assert!(rt; matches!(bindings.head(variable), TyNode::Var(0)));
    assert_eq!(rt; bindings.size(list), 2);
    let table = bindings.table()?;
    assert_eq!(rt; table.nodes.len(), 2);
    Ok(())
}
