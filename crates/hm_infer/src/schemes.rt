//! What an item leaves: the schemes of its names and the types of its nodes.
ghost use Rattle.std.specs.Prelude.{◌≡◌, ◌∷◌, [], OnOk, nat_eq};
ghost use Rattle.std.specs.HashMap.{get};
ghost use Rattle.hm_terms.specs.Stores.{store};
ghost use Rattle.hm_infer.specs.Closing.{Closes, Notes};

use hm_terms::Solver;
use ml_types::TyId;
use ml_typing::{Step, Unknown};
use oxml_base::NoMemory;
use std::collections::HashMap;

/// The names that an item binds have schemes behind it.
pub fn close_item(solver: &mut Solver, binders: &[u32]) -> Result<(), NoMemory>
    ensures closes { OnOk result (Closes (store solver.old) (store solver.new) binders.now) }
    ensures slots { OnOk result (solver.new.slots ≡ solver.old.slots) }
{
    for binder in binders {
        let id = solver.unknown(Unknown::Binder(*binder))?;
        solver.generalise(*binder, id)?;
    }
    Ok(())
}

/// Notes the types of the nodes of an item.
pub fn note_nodes(
    solver: &Solver,
    steps: &[Step],
    nodes: &mut HashMap<u32, TyId>,
) -> Result<(), NoMemory>
    ensures { OnOk result (Notes (store solver.now) steps.now (get nat_eq nodes.old) (get nat_eq nodes.new)) }
{
    for step in steps {
        note_step(solver, step, nodes)?;
    }
    Ok(())
}

/// Notes the type of the node of a step.
fn note_step(solver: &Solver, step: &Step, nodes: &mut HashMap<u32, TyId>) -> Result<(), NoMemory>
    ensures { OnOk result (Notes (store solver.now) (step.now ∷ []) (get nat_eq nodes.old) (get nat_eq nodes.new)) }
{
    if let Some(node) = step.node {
        // The node of a step that was run has a type.
        let id = solver.known(Unknown::Node(node)).ok_or(NoMemory)?;
        nodes.insert(node, id)?;
    }
    Ok(())
}
