//! Comparisons at types that have none.
ghost use Rattle.std.specs.Prelude.{◌≡◌, IfOk};
ghost use Rattle.std.specs.Bool.{MatchBool};
ghost use Rattle.ml_typing.specs.Typing.{Assignment};
ghost use Rattle.ml_typing.specs.Refusals.{CanCompare};
ghost use Rattle.hm_terms.specs.Stores.{store};
ghost use Rattle.hm_infer.specs.Running.{IsShown};
ghost use Rattle.hm_infer.specs.Compared.{FirstBad, IsPlain, IsGoodAt, IsBadAt};

use hm_terms::Solver;
use ml_types::TyNode;
use ml_typing::{Step, Unknown};
use oxml_base::{NoMemory, Span};

/// Whether values of a type can be compared: `int`, `char`, `string`, `bool` and `unit`.
fn can_compare(solver: &Solver, unknown: Unknown) -> Result<bool, NoMemory>
    ensures { IfOk result (λ can. (a : Assignment) → IsShown (store solver.now) a → MatchBool can (CanCompare (a unknown)) (CanCompare (a unknown) → ⊥)) }
{
    // The operands of a step that was run have a type.
    let id = solver.known(unknown).ok_or(NoMemory)?;
    match solver.head(id) {
        Some(node) => Ok(is_plain(node)),
        None => Ok(false),
    }
}

/// Whether a node is one of the first five declarations without arguments.
fn is_plain(node: &TyNode) -> bool
    ensures { MatchBool result (IsPlain node.now) (IsPlain node.now → ⊥) }
{
    match node {
        TyNode::Var(_) => false,
        TyNode::Con(number, args) => *number < 5 && args.is_empty(),
        TyNode::Tuple(_) => false,
        TyNode::Arrow { .. } => false,
    }
}

/// Whether a step compares nothing, or values that can be compared.
fn is_good(solver: &Solver, step: &Step) -> Result<bool, NoMemory>
    ensures { IfOk result (λ good. (a : Assignment) → IsShown (store solver.now) a → MatchBool good (IsGoodAt step.now a) (IsBadAt step.now a)) }
{
    match step.compared {
        Some(operands) => can_compare(solver, operands),
        None => Ok(true),
    }
}

/// The span of the first comparison whose operands have another type.
pub fn bad_comparison(solver: &Solver, steps: &[Step]) -> Result<Option<Span>, NoMemory>
    ensures { IfOk result (λ bad. (a : Assignment) → IsShown (store solver.now) a → FirstBad steps.now a bad) }
{
    for step in steps {
        if !is_good(solver, step)? {
            return Ok(Some(step.span));
        }
    }
    Ok(None)
}
