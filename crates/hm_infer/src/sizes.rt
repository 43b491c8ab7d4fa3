//! Whether a type that the steps have is too large.
ghost use Rattle.std.specs.Prelude.{◌≡◌, min, Some, IfOk};
ghost use Rattle.std.specs.Bool.{MatchBool};
ghost use Rattle.ml_types.specs.declared.node.TyId.{TyId as TyIdValue};
ghost use Rattle.ml_types.specs.Types.{tree_size};
ghost use Rattle.ml_typing.specs.Typing.{Assignment};
ghost use Rattle.ml_typing.specs.Refusals.{IsSmall};
ghost use Rattle.hm_terms.specs.Stores.{store};
ghost use Rattle.hm_infer.specs.Running.{IsShown};
ghost use Rattle.hm_infer.specs.Sizes.{HasLarge, HasLargeAt, IsSmallAt, HasLargeLeft, AreSmallLefts};

use hm_terms::Solver;
use ml_typing::{Equation, Step, Unknown};
use oxml_base::NoMemory;

/// How many nodes the type of an unknown has as a tree, counted up to 2,001.
fn size_of(solver: &Solver, unknown: Unknown) -> Result<u64, NoMemory>
    ensures known { IfOk result (λ _. (x : TyIdValue) × ((store solver.now).ids unknown ≡ Some x)) }
    ensures size { IfOk result (λ n. (a : Assignment) → IsShown (store solver.now) a → n ≡ min (tree_size (a unknown)) 2001) }
{
    // Each unknown of a step that was run has a type.
    let id = solver.known(unknown).ok_or(NoMemory)?;
    Ok(solver.size(id))
}

/// Whether what one of the equations is about has a type of more than 2,000 nodes.
fn any_left_large(solver: &Solver, equations: &[Equation]) -> Result<bool, NoMemory>
    ensures { IfOk result (λ large. (a : Assignment) → IsShown (store solver.now) a → MatchBool large (HasLargeLeft (store solver.now) equations.now a) (AreSmallLefts equations.now a)) }
{
    for equation in equations {
        let size = size_of(solver, equation.left)?;
        if size > 2000 {
            return Ok(true);
        }
    }
    Ok(false)
}

/// Whether a type that a step has is of more than 2,000 nodes.
fn step_is_large(solver: &Solver, step: &Step) -> Result<bool, NoMemory>
    ensures { IfOk result (λ large. (a : Assignment) → IsShown (store solver.now) a → MatchBool large (HasLargeAt (store solver.now) step.now a) (IsSmallAt step.now a)) }
{
    if let Some(node) = step.node {
        let size = size_of(solver, Unknown::Node(node))?;
        if size > 2000 {
            return Ok(true);
        }
    }
    any_left_large(solver, step.equations.as_slice())
}

/// Whether a type that these steps have is of more than 2,000 nodes.
pub fn any_large(solver: &Solver, steps: &[Step]) -> Result<bool, NoMemory>
    ensures { IfOk result (λ large. (a : Assignment) → IsShown (store solver.now) a → MatchBool large (HasLarge (store solver.now) steps.now a) (IsSmall steps.now a)) }
{
    for step in steps {
        if step_is_large(solver, step)? {
            return Ok(true);
        }
    }
    Ok(false)
}
