//! The types that were found, as a table.
ghost use Rattle.std.specs.Prelude.{◌≡◌, ◌+◌, ◌<◌, ◌≤◌, ℕ, IfOk, OnOk, nat_eq, Option, [], ◌∷◌, ◌++◌, reverse};
ghost use Rattle.std.specs.HashMap.{get};
ghost use Rattle.ml_types.specs.declared.node.TyId.{TyId as TyIdValue};
ghost use Rattle.ml_types.specs.declared.node.TyNode.TheVariants.{Arrow};
ghost use Rattle.ml_types.specs.Types.{Tree};
ghost use Rattle.hm_unify.specs.Solutions.{Stands};
ghost use Rattle.hm_unify.specs.States.{IsTableOf};
ghost use Rattle.hm_terms.specs.Stores.{store, state};
ghost use Rattle.hm_terms.specs.Contexts.{ShowsAny};
ghost use Rattle.hm_infer.specs.Tables.{AreNoted, AreSlotsBelow, Collects, HasSeen, IsScheme, Fills, Visits, with_number};

use hm_terms::Solver;
use ml_types::{Scheme, TyId, TyNode, TyTable};
use ml_typing::Typed;
use oxml_base::{Items, NoMemory};
use std::alloc::Global;
use std::collections::HashMap;

/// The first slot above those of a table's arrows.
pub fn slots_of(table: &TyTable) -> Result<u32, NoMemory>
    ensures { IfOk result (AreSlotsBelow table.now.nodes) }
{
    let nodes = table.nodes.as_slice();
    let mut slots = 0u32;
    for at in 0..nodes.len() {
        slots = slots_behind(slots, &nodes[at])?;
    }
    Ok(slots)
}

/// The first slot above that of a node, if it is an arrow, and not below `slots`.
fn slots_behind(slots: u32, node: &TyNode) -> Result<u32, NoMemory>
    ensures most { IfOk result (λ s. slots ≤ s) }
    ensures above { IfOk result (λ s. (slot : ℕ) (from to : TyIdValue) → node.now ≡ Arrow slot from to → slot < s) }
{
    match node {
        TyNode::Arrow { slot, .. } => {
            let behind = slot.checked_add(1).ok_or(NoMemory)?;
            Ok(slots.max(behind))
        }
        _ => Ok(slots),
    }
}

/// The types that were found: those of the nodes below `count`, and the schemes of the names among them.
pub fn typed(solver: Solver, count: u32, nodes: &HashMap<u32, TyId>) -> Result<Typed, NoMemory>
    ensures fills { IfOk result (λ t. (noted named : ℕ → Option Tree) → ((n : ℕ) → ShowsAny (store solver) (get nat_eq nodes.now n) (noted n)) → ((b : ℕ) → ShowsAny (store solver) ((store solver).schemes b) (named b)) → Fills noted named count t) }
    ensures table { IfOk result (λ t. IsTableOf (state (store solver)) t.table.nodes) }
{
    let node = nodes_of(solver.alloc, count, nodes)?;
    let schemes = schemes_of(&solver, count)?;
    let table = solver.table()?;
    let slots = slots_of(&table)?;
    Ok(Typed {
        table,
        node,
        schemes,
        slots,
    })
}

/// The types of all nodes below a number.
#[tactic(auto, using(crate::proofs::Tabling::noted_next))]
fn nodes_of(alloc: Global, count: u32, nodes: &HashMap<u32, TyId>) -> Result<Items<TyId>, NoMemory>
    ensures { IfOk result (AreNoted (get nat_eq nodes.now) count) }
{
    let mut ids = Items::new(alloc);
    for number in 0..count {
        // Each number below the count is a node's.
        let id = nodes.get(&number).copied().ok_or(NoMemory)?;
        ids.push(id)?;
    }
    Ok(ids)
}

/// The schemes of all names below a number.
fn schemes_of(solver: &Solver, count: u32) -> Result<Items<Scheme>, NoMemory>
    ensures { IfOk result (λ ss. (named : ℕ → Option Tree) → ((b : ℕ) → ShowsAny (store solver.now) ((store solver.now).schemes b) (named b)) → Collects (store solver.now).nodes (store solver.now).bound named count ss) }
{
    let mut schemes = Items::new(solver.alloc);
    for number in 0..count {
        push_scheme(solver, number, &mut schemes)?;
    }
    Ok(schemes)
}

/// Appends the scheme of the name of this number, where there is one.
fn push_scheme(solver: &Solver, number: u32, schemes: &mut Items<Scheme>) -> Result<(), NoMemory>
    ensures { OnOk result ((named : ℕ → Option Tree) → ((b : ℕ) → ShowsAny (store solver.now) ((store solver.now).schemes b) (named b)) → Collects (store solver.now).nodes (store solver.now).bound named number schemes.old → Collects (store solver.now).nodes (store solver.now).bound named (number + 1) schemes.new) }
{
    let Some(ty) = solver.scheme(number) else {
        return Ok(())
    };
    let scheme = scheme_of(solver, ty)?;
    schemes.push(scheme)?;
    Ok(())
}

/// The scheme of a type: every variable in it is generalised, in the order of first use. The type has
/// at most 2,000 nodes.
fn scheme_of(solver: &Solver, ty: TyId) -> Result<Scheme, NoMemory>
    ensures { IfOk result (λ s. (w : Tree) → Stands (store solver.now).nodes (store solver.now).bound ty w → IsScheme ty w s) }
{
    let alloc = solver.alloc;
    let mut vars = Items::new(alloc);
    let mut seen: HashMap<u32, bool> = HashMap::new(alloc);
    let mut stack = Vec::new(alloc);
    stack.push(ty)?;
    for _node in 0..2001 {
        let Some(id) = stack.pop() else {
            return Ok(Scheme { vars, ty });
        };
        let Some(node) = solver.head(id) else {
            return Err(NoMemory)
        };
        visit(node, &mut vars, &mut seen, &mut stack)?;
    }
    Err(NoMemory)
}

/// Notes the variable of a node, or goes on to its parts.
#[tactic(auto, using(crate::proofs::Uses::visits_variable, crate::proofs::Uses::visits_parts))]
fn visit(
    node: &TyNode,
    vars: &mut Items<u32>,
    seen: &mut HashMap<u32, bool>,
    stack: &mut Vec<TyId>,
) -> Result<(), NoMemory>
    ensures { OnOk result (HasSeen (get nat_eq seen.old) vars.old → Visits node.now vars.old vars.new stack.old.items stack.new.items × HasSeen (get nat_eq seen.new) vars.new) }
{
    match node {
        TyNode::Var(number) => note(vars, seen, *number),
        TyNode::Con(_, parts) => push_parts(stack, parts.as_slice()),
        TyNode::Tuple(parts) => push_parts(stack, parts.as_slice()),
        TyNode::Arrow { from, to, .. } => push_two(stack, *from, *to),
    }
}

/// A variable is among those that came up, once.
#[tactic(auto, using(crate::proofs::Uses::note_old))]
fn note(vars: &mut Items<u32>, seen: &mut HashMap<u32, bool>, number: u32) -> Result<(), NoMemory>
    ensures { OnOk result (HasSeen (get nat_eq seen.old) vars.old → (vars.new ≡ with_number vars.old number) × HasSeen (get nat_eq seen.new) vars.new) }
{
    if seen.contains_key(&number) {
        return Ok(());
    }
    seen.insert(number, true)?;
    vars.push(number)?;
    Ok(())
}

/// Pushes parts, the first on top.
fn push_parts(stack: &mut Vec<TyId>, parts: &[TyId]) -> Result<(), NoMemory>
    ensures { OnOk result (stack.new.items ≡ stack.old.items ++ reverse parts.now) }
{
    for done in 0..parts.len() {
        stack.push(parts[parts.len() - 1 - done])?;
    }
    Ok(())
}

/// Pushes the two parts of an arrow, the first on top.
fn push_two(stack: &mut Vec<TyId>, from: TyId, to: TyId) -> Result<(), NoMemory>
    ensures { OnOk result (stack.new.items ≡ stack.old.items ++ to ∷ from ∷ []) }
{
    stack.push(to)?;
    stack.push(from)?;
    Ok(())
}
