//! The declared types, in which abbreviations are the types that they stand for.
ghost use Rattle.std.specs.Prelude.{◌≡◌, ◌≤◌, ◌<◌, ℕ, IfOk, IfSome, OnOk, map, slice_get};
ghost use Rattle.ml_types.specs.declared.node.TyId.{TyId as TyIdValue};
ghost use Rattle.ml_types.specs.declared.node.TyNode.TheVariants.{Var};
ghost use Rattle.ml_types.specs.Types.{Tree, parts_of};
ghost use Rattle.ml_typing.specs.Typing.{Reads, abbreviated, alias_of, tree_at, at_types};
ghost use Rattle.hm_terms.specs.Stores.{store, IsReady, Grows};
ghost use Rattle.hm_terms.specs.Copies.{AreCopies};
ghost use Rattle.hm_infer.specs.Declaring.{IsBare, AreBelow, AreDeclared, IsBuilt, IsVariable, DeclaresMore, Finds};

use hm_terms::{Put, Solver, instance};
use ml_types::{Decls, TyId, TyNode, TyTable};
use ml_typing::Unknown;
use oxml_base::{Items, NoMemory};
use sqlite_items::at;
use std::collections::HashSet;

/// How many nodes may be made, beside one for each of the table's, before large types are given up. Thirty
/// declarations as `type 'a t = 'a s s` would make 2^30 nodes, of a type that no value ever has, and may
/// stand in a program that never uses them. A declared type that is given up has no id, and its use is
/// answered by `NoMemory`.
const LIMIT: u64 = 65_536;

/// How many nodes the type of a value has at most.
const LARGEST: u64 = 2_000;

/// An id whose parts are still to be met, or whose parts were met.
#[derive(Clone, Copy)]
struct Frame {
    id: TyId,
    closing: bool,
}

/// Gives each declared type an id at which its abbreviations are expanded.
pub fn declare_all(solver: &mut Solver, d: &Decls, table: &TyTable) -> Result<(), NoMemory>
    ensures { OnOk result (IsBare (store solver.old) → (declared : TyIdValue → Tree) → Reads d.now.types table.now.nodes declared → AreDeclared (store solver.old) (store solver.new) declared) }
{
    let count = variables_of(table)?;
    add_variables(solver, count)?;
    declare_types(solver, d, table)?;
    solver.sound();
    Ok(())
}

/// The first number above those of the variables of a table.
fn variables_of(table: &TyTable) -> Result<u32, NoMemory>
    ensures { IfOk result (AreBelow table.now.nodes) }
{
    let nodes = table.nodes.as_slice();
    let mut count = 0u32;
    for at in 0..nodes.len() {
        count = variables_behind(count, &nodes[at])?;
    }
    Ok(count)
}

/// The first number above that of a node, if it is a variable, and not below `count`.
fn variables_behind(count: u32, node: &TyNode) -> Result<u32, NoMemory>
    ensures most { IfOk result (λ c. count ≤ c) }
    ensures above { IfOk result (λ c. (v : ℕ) → node.now ≡ Var v → v < c) }
{
    match node {
        TyNode::Var(number) => {
            let behind = number.checked_add(1).ok_or(NoMemory)?;
            Ok(count.max(behind))
        }
        _ => Ok(count),
    }
}

/// Gives the variables of the declared types ids, as the fresh types of node 0, of which no item has
/// made any. Made first and in order, each has its own number.
#[tactic(auto, using(crate::proofs::Declarations::variables_none))]
fn add_variables(solver: &mut Solver, count: u32) -> Result<(), NoMemory>
    ensures { OnOk result (IsReady (store solver.old) → Grows (store solver.old) (store solver.new)) }
{
    for number in 0..count {
        let _id = solver.unknown(Unknown::Fresh(0, number))?;
    }
    Ok(())
}

/// Declares the types of a table.
#[tactic(auto, using(crate::proofs::Declarations::declares_none, crate::proofs::Declarations::declares_then))]
fn declare_types(solver: &mut Solver, d: &Decls, table: &TyTable) -> Result<(), NoMemory>
    ensures { OnOk result (DeclaresMore d.now.types table.now.nodes (store solver.old) (store solver.new)) }
{
    let mut met: HashSet<u32> = HashSet::new(solver.alloc);
    for number in 0..u32::MAX {
        if number as usize >= table.nodes.as_slice().len() {
            return Ok(());
        }
        declare_from(solver, d, table, &mut met, TyId(number))?;
    }
    // No table has so many nodes.
    Err(NoMemory)
}

/// Declares a type and what it is made of. The walk has a stack of its own, since types can be as deep
/// as the declarations are long.
#[tactic(auto, using(crate::proofs::Declarations::declares_none, crate::proofs::Declarations::declares_then))]
fn declare_from(
    solver: &mut Solver,
    d: &Decls,
    table: &TyTable,
    met: &mut HashSet<u32>,
    root: TyId,
) -> Result<(), NoMemory>
    ensures { OnOk result (DeclaresMore d.now.types table.now.nodes (store solver.old) (store solver.new)) }
{
    let mut stack = Vec::new(solver.alloc);
    stack.push(Frame {
        id: root,
        closing: false,
    })?;
    for _step in 0..u64::MAX {
        let Some(frame) = stack.pop() else {
            return Ok(());
        };
        visit(solver, d, table, met, &mut stack, frame)?;
    }
    // No walk has so many steps.
    Err(NoMemory)
}

/// Declares a type whose parts were met; else goes on to its parts, if it was not met before.
#[tactic(auto, using(crate::proofs::Declarations::declares_none))]
fn visit(
    solver: &mut Solver,
    d: &Decls,
    table: &TyTable,
    met: &mut HashSet<u32>,
    stack: &mut Vec<Frame>,
    frame: Frame,
) -> Result<(), NoMemory>
    ensures { OnOk result (DeclaresMore d.now.types table.now.nodes (store solver.old) (store solver.new)) }
{
    let Frame { id, closing } = frame;
    if closing {
        return declare(solver, d, table, id);
    }
    if !met.insert(id.0)? {
        return Ok(());
    }
    stack.push(Frame { id, closing: true })?;
    push_needed(d, table, stack, id)
}

/// Pushes the ids that are to be declared before one.
fn push_needed(
    d: &Decls,
    table: &TyTable,
    stack: &mut Vec<Frame>,
    id: TyId,
) -> Result<(), NoMemory> {
    let Some(node) = at(table.nodes.as_slice(), id.0 as usize) else {
        return Ok(())
    };
    if let Some(body) = body_of(d, node) {
        stack.push(Frame {
            id: body,
            closing: false,
        })?;
    }
    match node {
        TyNode::Var(_) => Ok(()),
        TyNode::Con(_, parts) => push_parts(stack, parts.as_slice()),
        TyNode::Tuple(parts) => push_parts(stack, parts.as_slice()),
        TyNode::Arrow { from, to, .. } => push_parts(stack, &[*from, *to]),
    }
}

/// Pushes parts that are to be met.
fn push_parts(stack: &mut Vec<Frame>, parts: &[TyId]) -> Result<(), NoMemory> {
    for part in parts {
        stack.push(Frame {
            id: *part,
            closing: false,
        })?;
    }
    Ok(())
}

/// The type that a node abbreviates.
fn body_of(d: &Decls, node: &TyNode) -> Option<TyId>
    ensures { result ≡ abbreviated d.now.types node.now }
{
    match node {
        TyNode::Con(number, _) => alias(d, *number),
        _ => None,
    }
}

/// The type that a declaration abbreviates.
fn alias(d: &Decls, number: u32) -> Option<TyId>
    ensures { result ≡ alias_of (slice_get d.now.types number) }
{
    match at(d.types.as_slice(), number as usize) {
        Some(info) => info.alias,
        None => None,
    }
}

/// Gives a declared type an id, if its parts and what it abbreviates have one.
fn declare(solver: &mut Solver, d: &Decls, table: &TyTable, ty: TyId) -> Result<(), NoMemory>
    ensures { OnOk result (DeclaresMore d.now.types table.now.nodes (store solver.old) (store solver.new)) }
{
    let room = has_room(solver, table);
    let Some(id) = find(solver, d, table, room, ty)? else {
        return Ok(())
    };
    solver.declare(ty, id)
}

/// Whether large types may have more nodes.
fn has_room(solver: &Solver, table: &TyTable) -> bool {
    let count = table.nodes.as_slice().len() as u64;
    solver.count().saturating_sub(count) <= LIMIT
}

/// The id of a declared type whose parts and body have ids.
#[tactic(auto, using(crate::proofs::Declarations::found_nothing))]
fn find(
    solver: &mut Solver,
    d: &Decls,
    table: &TyTable,
    room: bool,
    ty: TyId,
) -> Result<Option<TyId>, NoMemory>
    ensures { IfOk result (λ o. (declared : TyIdValue → Tree) → Reads d.now.types table.now.nodes declared → Finds (store solver.old) (store solver.new) declared (declared ty) o) }
{
    let Some(node) = at(table.nodes.as_slice(), ty.0 as usize) else {
        return Ok(None)
    };
    match body_of(d, node) {
        Some(body) => expanded(solver, node, body, room),
        None => built(solver, node),
    }
}

/// The id of a node whose parts have ids, as the node says.
#[tactic(auto, using(crate::proofs::Declaring::none_found))]
fn built(solver: &mut Solver, node: &TyNode) -> Result<Option<TyId>, NoMemory>
    ensures { IfOk result (λ o. (declared : TyIdValue → Tree) (w : Tree) → IsBuilt declared node.now w → Finds (store solver.old) (store solver.new) declared w o) }
{
    match node {
        TyNode::Var(number) => Ok(variable(solver, *number)),
        TyNode::Con(number, parts) => {
            let number = *number;
            let Some(ids) = ids_of(solver, parts.as_slice())? else {
                return Ok(None)
            };
            let id = solver.add(TyNode::Con(number, ids))?;
            Ok(Some(id))
        }
        TyNode::Tuple(parts) => {
            let Some(ids) = ids_of(solver, parts.as_slice())? else {
                return Ok(None)
            };
            let id = solver.add(TyNode::Tuple(ids))?;
            Ok(Some(id))
        }
        TyNode::Arrow { slot, from, to } => {
            let slot = *slot;
            let Some(first) = solver.declared(*from) else {
                return Ok(None)
            };
            let Some(second) = solver.declared(*to) else {
                return Ok(None)
            };
            let id = solver.add(TyNode::Arrow {
                slot,
                from: first,
                to: second,
            })?;
            Ok(Some(id))
        }
    }
}

/// The id of the variable of a number.
fn variable(solver: &Solver, number: u32) -> Option<TyId>
    ensures { IfSome result (λ x. IsVariable (store solver.now) number x) }
{
    let id = solver.known(Unknown::Fresh(0, number))?;
    match solver.head(id) {
        Some(TyNode::Var(other)) if *other == number => Some(id),
        _ => None,
    }
}

/// The id of an abbreviation whose body and arguments have ids. Where there is no room, a body with more
/// nodes than the type of a value has at most is given up: the type has as many.
#[tactic(auto, using(crate::proofs::Declaring::none_found))]
fn expanded(
    solver: &mut Solver,
    node: &TyNode,
    body: TyId,
    room: bool,
) -> Result<Option<TyId>, NoMemory>
    ensures { IfOk result (λ o. (declared : TyIdValue → Tree) → Finds (store solver.old) (store solver.new) declared (at_types (tree_at (map declared (parts_of node.now))) (declared body)) o) }
{
    let TyNode::Con(_, parts) = node else {
        return Ok(None)
    };
    let Some(root) = solver.declared(body) else {
        return Ok(None)
    };
    if !room && solver.size(root) > LARGEST {
        return Ok(None);
    }
    let Some(arguments) = ids_of(solver, parts.as_slice())? else {
        return Ok(None)
    };
    solver.sound();
    let id = instance(solver, root, Put::Arguments(arguments.as_slice()))?;
    Ok(Some(id))
}

/// The ids of declared types; `None` where one has none.
fn ids_of(solver: &Solver, parts: &[TyId]) -> Result<Option<Items<TyId>>, NoMemory>
    ensures { IfOk result (λ o. IfSome o (λ ids. AreCopies (store solver.now).declared parts.now ids)) }
{
    let mut ids = Items::new(solver.alloc);
    for part in parts {
        let Some(id) = solver.declared(*part) else {
            return Ok(None)
        };
        ids.push(id)?;
    }
    Ok(Some(ids))
}
