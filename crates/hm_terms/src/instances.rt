//! Instances of types: their variables at other types. Only the parts that hold variables are copied.
ghost use Rattle.std.specs.Prelude.{◌≡◌, ℕ, IfOk, OnOk, IsTrue, Some, nat_eq, slice_get};
ghost use Rattle.std.specs.HashMap.{get};
ghost use Rattle.ml_types.specs.Types.{Tree};
ghost use Rattle.ml_types.specs.declared.node.TyNode.TheVariants.{Var};
ghost use Rattle.ml_typing.specs.Terms.{Shape, with_shapes};
ghost use Rattle.hm_unify.specs.Solutions.{Stands};
ghost use Rattle.hm_unify.specs.States.{IsHead};
ghost use Rattle.hm_terms.specs.Stores.{store, state, IsReady};
ghost use Rattle.hm_terms.specs.Shapes.{Lowers, Puts};
ghost use Rattle.hm_terms.specs.Copies.{AreCopies, Copies, Rebuilt};
ghost use Rattle.hm_terms.specs.Slots.{places, MakesCopy, MakesPut, StepKeeps};

use crate::nodes::part;
use crate::solver::Solver;
use ml_types::{TyId, TyNode};
use ml_typing::Unknown;
use oxml_base::{Items, NoMemory};
use std::alloc::Global;
use std::collections::HashMap;

/// The types that are put for variables.
#[derive(Clone, Copy)]
pub enum Put<'a> {
    /// The arguments of an abbreviation, by their places; the empty product past the last.
    Arguments(&'a [TyId]),
    /// The fresh types of a node, by their numbers.
    Fresh(u32),
}

/// The type that is put for a variable.
fn type_for(solver: &mut Solver, put: Put, number: u32) -> Result<TyId, NoMemory>
    ensures lowers { IfOk result (λ x. (f : ℕ → Shape) → IsReady (store solver.old) → Puts (store solver.old) put.entry f → Lowers (store solver.old) (store solver.new) (f number) x) }
    ensures puts { IfOk result (λ x. MakesPut (store solver.old) (store solver.new) (places put.entry) number x) }
    ensures slots { solver.new.slots ≡ solver.old.slots }
{
    match put {
        Put::Fresh(node) => solver.unknown(Unknown::Fresh(node, number)),
        Put::Arguments(args) => match argument(args, number) {
            Some(id) => Ok(id),
            None => solver.nothing(),
        },
    }
}

/// The argument at a place.
fn argument(args: &[TyId], number: u32) -> Option<TyId>
    ensures { result ≡ slice_get args.now number }
{
    args.get(number as usize).copied()
}

/// A node whose parts before `next` have copies.
#[derive(Clone, Copy)]
struct Frame {
    id: TyId,
    next: usize,
}

/// The type of `root` with other types for its variables. The walk has a stack of its own, since
/// types can be as deep as the declarations are long.
pub fn instance(solver: &mut Solver, root: TyId, put: Put) -> Result<TyId, NoMemory>
    ensures lowers { IfOk result (λ x. (f : ℕ → Shape) (w : Tree) → IsReady (store solver.old) → Puts (store solver.old) put.entry f → Stands (store solver.old).nodes (store solver.old).bound root w → Lowers (store solver.old) (store solver.new) (with_shapes f w) x) }
    ensures copies { IfOk result (λ x. IsReady (store solver.old) → MakesCopy (store solver.old) (store solver.new) (places put.entry) root x) }
    ensures slots { solver.new.slots ≡ solver.old.slots }
{
    let alloc = solver.alloc;
    let mut copies: HashMap<u32, TyId> = HashMap::new(alloc);
    let mut stack = Vec::new(alloc);
    stack.push(Frame { id: root, next: 0 })?;
    for _step in 0..u64::MAX {
        let Some(frame) = stack.pop() else {
            return copy_of(&copies, root);
        };
        visit(solver, put, &mut copies, &mut stack, frame)?;
    }
    // No walk has so many steps.
    Err(NoMemory)
}

/// Goes on to the first part that has no copy, or copies the node where there is none.
fn visit(
    solver: &mut Solver,
    put: Put,
    copies: &mut HashMap<u32, TyId>,
    stack: &mut Vec<Frame>,
    frame: Frame,
) -> Result<(), NoMemory>
    ensures copies { OnOk result (Copies (store solver.old) (store solver.new) put.entry (get nat_eq copies.old) (get nat_eq copies.new)) }
    ensures keeps { OnOk result (IsReady (store solver.old) → StepKeeps (store solver.old) (store solver.new) (places put.entry) (get nat_eq copies.old) (get nat_eq copies.new)) }
    ensures slots { solver.new.slots ≡ solver.old.slots }
{
    let Frame { id, next } = frame;
    let Some(node) = solver.head(id) else {
        return Err(NoMemory)
    };
    if let TyNode::Var(number) = node {
        let number = *number;
        return copy_variable(solver, put, copies, id, number);
    }
    match part(node, next) {
        Some(inner) => {
            let further = next.checked_add(1).ok_or(NoMemory)?;
            stack.push(Frame { id, next: further })?;
            if !copies.contains_key(&inner.0) {
                stack.push(Frame { id: inner, next: 0 })?;
            }
            Ok(())
        }
        None => copy_node(solver, put, copies, id),
    }
}

/// Notes what is put for the variable that stands for an id.
fn copy_variable(
    solver: &mut Solver,
    put: Put,
    copies: &mut HashMap<u32, TyId>,
    id: TyId,
    number: u32,
) -> Result<(), NoMemory>
    ensures copies { OnOk result (IsHead (state (store solver.old)) id (Var number) → Copies (store solver.old) (store solver.new) put.entry (get nat_eq copies.old) (get nat_eq copies.new)) }
    ensures keeps { OnOk result (IsHead (state (store solver.old)) id (Var number) → IsReady (store solver.old) → StepKeeps (store solver.old) (store solver.new) (places put.entry) (get nat_eq copies.old) (get nat_eq copies.new)) }
    ensures slots { solver.new.slots ≡ solver.old.slots }
{
    let copy = type_for(solver, put, number)?;
    copies.insert(id.0, copy)?;
    Ok(())
}

/// Notes the copy of a node whose parts have copies.
fn copy_node(
    solver: &mut Solver,
    put: Put,
    copies: &mut HashMap<u32, TyId>,
    id: TyId,
) -> Result<(), NoMemory>
    ensures copies { OnOk result (Copies (store solver.old) (store solver.new) put.entry (get nat_eq copies.old) (get nat_eq copies.new)) }
    ensures keeps { OnOk result (IsReady (store solver.old) → StepKeeps (store solver.old) (store solver.new) (places put.entry) (get nat_eq copies.old) (get nat_eq copies.new)) }
    ensures slots { solver.new.slots ≡ solver.old.slots }
{
    let copy = rebuilt(solver, copies, id)?;
    copies.insert(id.0, copy)?;
    Ok(())
}

/// A node with the copies of its parts: the node itself where these are its parts.
fn rebuilt(solver: &mut Solver, copies: &HashMap<u32, TyId>, id: TyId) -> Result<TyId, NoMemory>
    ensures rebuilt { IfOk result (λ x. Rebuilt (store solver.old) (store solver.new) (get nat_eq copies.now) id x) }
    ensures slots { solver.new.slots ≡ solver.old.slots }
{
    let alloc = solver.alloc;
    let Some(node) = solver.head(id) else {
        return Err(NoMemory)
    };
    match node {
        TyNode::Var(_) => Err(NoMemory),
        TyNode::Con(number, parts) => {
            let number = *number;
            let others = copies_of(alloc, copies, parts.as_slice())?;
            if same_ids(parts.as_slice(), others.as_slice()) {
                return Ok(id);
            }
            solver.add(TyNode::Con(number, others))
        }
        TyNode::Tuple(parts) => {
            let others = copies_of(alloc, copies, parts.as_slice())?;
            if same_ids(parts.as_slice(), others.as_slice()) {
                return Ok(id);
            }
            solver.add(TyNode::Tuple(others))
        }
        TyNode::Arrow { slot, from, to } => {
            let slot = *slot;
            let from = *from;
            let to = *to;
            let first = copy_of(copies, from)?;
            let second = copy_of(copies, to)?;
            if same_two(from, to, first, second) {
                return Ok(id);
            }
            // An instance's arrow keeps the slot.
            solver.add(TyNode::Arrow {
                slot,
                from: first,
                to: second,
            })
        }
    }
}

/// The copy of an id that has one.
fn copy_of(copies: &HashMap<u32, TyId>, id: TyId) -> Result<TyId, NoMemory>
    ensures { IfOk result (λ x. get nat_eq copies.now id.0 ≡ Some x) }
{
    copies.get(&id.0).copied().ok_or(NoMemory)
}

/// The copies of ids that have one.
fn copies_of(
    alloc: Global,
    copies: &HashMap<u32, TyId>,
    parts: &[TyId],
) -> Result<Items<TyId>, NoMemory>
    ensures { IfOk result (λ xs. AreCopies (get nat_eq copies.now) parts.now xs) }
{
    let mut others = Items::new(alloc);
    for id in parts {
        let copy = copy_of(copies, *id)?;
        others.push(copy)?;
    }
    Ok(others)
}

/// Whether two lists of ids are equal.
fn same_ids(left: &[TyId], right: &[TyId]) -> bool
    ensures { IsTrue result → left.now ≡ right.now }
{
    if left.len() != right.len() {
        return false;
    }
    for at in 0..left.len() {
        if left[at].0 != right[at].0 {
            return false;
        }
    }
    true
}

/// Whether two ids are two others.
fn same_two(from: TyId, to: TyId, first: TyId, second: TyId) -> bool
    ensures { IsTrue result → (first ≡ from) × (second ≡ to) }
{
    first.0 == from.0 && second.0 == to.0
}
