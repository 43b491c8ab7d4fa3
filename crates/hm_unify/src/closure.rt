//! The closure of equations: which types they force to be equal.
ghost use Rattle.std.specs.Prelude.{◌≡◌, ℕ, ◌<◌, [], ◌∷◌, ◌++◌, length, slice_get, Option, Some, None, IfOk, OnOk, MatchOption, IsTrue};
ghost use Rattle.std.specs.Bool.{OnTrue, OnFalse};
ghost use Rattle.ml_types.specs.declared.node.TyId.{TyId};
ghost use Rattle.ml_types.specs.Types.{Tree, trees, parts_of};
ghost use Rattle.hm_unify.specs.Solutions.{Pairs, Equates, NoInfinite};
ghost use Rattle.hm_unify.specs.States.{IsTabled};
ghost use Rattle.hm_unify.specs.Classes.{IsRoot};
ghost use Rattle.hm_unify.specs.declared.classes.End.{End};
ghost use Rattle.hm_unify.specs.Closing.{kind, end_at, IsClosure, PairsWithin, SomeClosure, IsBuiltIn, Merges, Links, Clashes, ToDo, MayLink};

use crate::bound::{end_of, is_below};
use crate::classes::{Classes, End};
use crate::node::{node, part, same_head, variable};
use ml_types::{TyId, TyNode};
use oxml_base::NoMemory;
use std::alloc::Global;

/// What stands for an id under the bindings.
pub fn end(nodes: &[TyNode], bound: &[Option<TyId>], id: TyId) -> End
    requires tabled { IsTabled nodes.now bound.now }
    requires within { id.0 < length nodes.now }
    ensures { result ≡ kind nodes.now (end_at nodes.now bound.now id) }
{
    let last = end_of(nodes, bound, id);
    match variable(node(nodes, last)) {
        None => End::Built(last.0),
        Some(number) => End::Free(number),
    }
}

/// Adds the pairs of the parts of two nodes.
fn push_parts(todo: &mut Vec<(TyId, TyId)>, left: &TyNode, right: &TyNode) -> Result<(), NoMemory>
    requires { length (parts_of left.now) ≡ length (parts_of right.now) }
    ensures old { OnOk result ((d : TyId → Tree) → Equates d todo.new.items → Equates d todo.old.items) }
    ensures parts { OnOk result ((d : TyId → Tree) → Equates d todo.new.items → trees d (parts_of left.now) ≡ trees d (parts_of right.now)) }
    ensures new { OnOk result ((d : TyId → Tree) → Equates d todo.old.items → trees d (parts_of left.now) ≡ trees d (parts_of right.now) → Equates d todo.new.items) }
    ensures within { OnOk result ((n : ℕ) → ((i : ℕ) (p : TyId) → slice_get (parts_of left.now) i ≡ Some p → p.0 < n) → ((i : ℕ) (p : TyId) → slice_get (parts_of right.now) i ≡ Some p → p.0 < n) → PairsWithin n todo.old.items → PairsWithin n todo.new.items) }
{
    for at in 0..u64::MAX {
        let Some(first) = part(left, at as usize) else {
            return Ok(())
        };
        let Some(second) = part(right, at as usize) else {
            return Ok(())
        };
        todo.push((first, second))?;
    }
    // No node has so many parts.
    Err(NoMemory)
}

/// Which of two roots is linked to the other: a variable to a node, and else by a mixed order.
fn goes_left(left: End, right: End) -> bool
    ensures yes { IsTrue result → MayLink left right }
    ensures no { (IsTrue result → ⊥) → MayLink right left }
{
    match left {
        End::Free(low) => match right {
            End::Free(high) => low != high && is_below(low, high),
            End::Built(_) => true,
        },
        End::Built(low) => match right {
            End::Free(_) => false,
            End::Built(high) => low != high && is_below(low, high),
        },
    }
}

/// Links two roots that may be in one class: they are apart, and where both are nodes, their heads
/// are the same.
fn link(classes: &mut Classes, left: End, right: End) -> Result<(), NoMemory>
    requires free_left { IsRoot classes.old left }
    requires free_right { IsRoot classes.old right }
    requires apart { left ≡ right → ⊥ }
    ensures { OnOk result (Links classes.old classes.new left right) }
{
    if goes_left(left, right) {
        classes.join(left, right)
    } else {
        classes.join(right, left)
    }
}

/// Adds what follows where two roots come into one class: where both are nodes, the pairs of their
/// parts. `false` where their heads differ.
fn push_common(
    nodes: &[TyNode],
    todo: &mut Vec<(TyId, TyId)>,
    left: End,
    right: End,
) -> Result<bool, NoMemory>
    requires built_left { IsBuiltIn nodes.now left }
    requires built_right { IsBuiltIn nodes.now right }
    ensures yes { IfOk result (λ ok. OnTrue ok (ToDo nodes.now todo.old.items todo.new.items left right)) }
    ensures no { IfOk result (λ ok. OnFalse ok (Clashes nodes.now left right)) }
{
    let End::Built(first) = left else {
        return Ok(true)
    };
    let End::Built(second) = right else {
        return Ok(true)
    };
    let one = node(nodes, TyId(first));
    let other = node(nodes, TyId(second));
    if !same_head(one, other) {
        return Ok(false);
    }
    push_parts(todo, one, other)?;
    Ok(true)
}

/// Makes the two roots of a pair one class. `false` where their heads differ.
fn merge(
    nodes: &[TyNode],
    classes: &mut Classes,
    todo: &mut Vec<(TyId, TyId)>,
    left: End,
    right: End,
) -> Result<bool, NoMemory>
    requires free_left { IsRoot classes.old left }
    requires free_right { IsRoot classes.old right }
    requires apart { left ≡ right → ⊥ }
    requires built_left { IsBuiltIn nodes.now left }
    requires built_right { IsBuiltIn nodes.now right }
    ensures yes { IfOk result (λ ok. OnTrue ok (Merges nodes.now classes.old classes.new todo.old.items todo.new.items left right)) }
    ensures no { IfOk result (λ ok. OnFalse ok (Clashes nodes.now left right)) }
{
    if !push_common(nodes, todo, left, right)? {
        return Ok(false);
    }
    link(classes, left, right)?;
    Ok(true)
}

/// One pair of the closure. `false` where two types in one class would have different heads.
fn step(
    nodes: &[TyNode],
    bound: &[Option<TyId>],
    classes: &mut Classes,
    todo: &mut Vec<(TyId, TyId)>,
    first: TyId,
    second: TyId,
) -> Result<bool, NoMemory>
    requires tabled { IsTabled nodes.now bound.now }
    requires closure { SomeClosure nodes.now bound.now classes.old (todo.old.items ++ (first, second) ∷ []) }
    ensures yes { IfOk result (λ ok. OnTrue ok ((pairs seen : Pairs) → IsClosure nodes.now bound.now pairs classes.old (todo.old.items ++ (first, second) ∷ []) seen → IsClosure nodes.now bound.now pairs classes.new todo.new.items (seen ++ (first, second) ∷ []))) }
    ensures no { IfOk result (λ ok. OnFalse ok ((pairs seen : Pairs) → IsClosure nodes.now bound.now pairs classes.old (todo.old.items ++ (first, second) ∷ []) seen → NoInfinite nodes.now bound.now pairs)) }
{
    let left = classes.root(end(nodes, bound, first))?;
    let right = classes.root(end(nodes, bound, second))?;
    if left == right {
        return Ok(true);
    }
    let merged = merge(nodes, classes, todo, left, right)?;
    if !merged {
        return Ok(false);
    }
    Ok(true)
}

/// Classes that are closed under pairs, with all pairs that came up.
#[derive(Drop)]
pub struct Closed {
    pub classes: Classes,
    pub seen: Vec<(TyId, TyId)>,
}

/// The classes that the pairs force, over the bindings. `None` where two types in one class would
/// have different heads.
pub fn close(
    alloc: Global,
    nodes: &[TyNode],
    bound: &[Option<TyId>],
    pairs: &[(TyId, TyId)],
) -> Result<Option<Closed>, NoMemory>
    requires tabled { IsTabled nodes.now bound.now }
    requires within { PairsWithin (length nodes.now) pairs.now }
    ensures { IfOk result (λ closed. MatchOption closed (NoInfinite nodes.now bound.now pairs.now) (λ c. IsClosure nodes.now bound.now pairs.now c.classes [] c.seen.items)) }
{
    let mut classes = Classes::new(alloc);
    let mut todo = Vec::from_slice(alloc, pairs)?;
    let mut seen = Vec::new(alloc);
    for _step in 0..u64::MAX {
        let Some((first, second)) = todo.pop() else {
            return Ok(Some(Closed { classes, seen }));
        };
        seen.push((first, second))?;
        let stepped = step(nodes, bound, &mut classes, &mut todo, first, second)?;
        if !stepped {
            return Ok(None);
        }
    }
    // No closure has so many steps.
    Err(NoMemory)
}
