//! Which rule refuses steps that have no solution.
ghost use Rattle.std.specs.Prelude.{IfOk, OnOk, List, ◌++◌};
ghost use Rattle.oxml_base.specs.Rules.{rule_number};
ghost use Rattle.ml_typing.specs.Terms.{Context};
ghost use Rattle.ml_typing.specs.Typing.{Pair, pairs};
ghost use Rattle.ml_typing.specs.Refusals.{IsRuleOf};
ghost use Rattle.hm_terms.specs.Stores.{store};
ghost use Rattle.hm_terms.specs.Contexts.{IsRead};
ghost use Rattle.hm_infer.specs.Running.{LowersPairs};

use crate::run::push_pairs;
use hm_terms::Solver;
use hm_unify::UnifyErr;
use ml_types::{Decls, TyId};
use ml_typing::Step;
use oxml_base::{NoMemory, Rule};

/// The rule that refuses steps which have no solution: 40 where infinite types give none either, and
/// 41 where they give one. The unknowns of the item are forgotten and come up again, so that nothing
/// is equal yet and all equations are decided together. It happens once in a program.
pub fn rule_of(solver: &mut Solver, d: &Decls, steps: &[Step]) -> Result<Rule, NoMemory>
    ensures { IfOk result (λ rule. (c : Context) → IsRead (store solver.old) d.now.types c → IsRuleOf (rule_number rule) (pairs c steps.now)) }
{
    solver.next_item();
    solver.sound();
    let all = all_pairs(solver, d, steps)?;
    solver.sound();
    match solver.equate(all.as_slice()) {
        Err(UnifyErr::Clash(_)) => Ok(Rule::TypesDiffer),
        Err(UnifyErr::Cycle(_)) => Ok(Rule::InfiniteType),
        // They have no solution, so that nothing else is answered.
        _ => Err(NoMemory),
    }
}

/// The pairs of types that the equations of all these steps make equal.
#[tactic(auto, using(crate::proofs::StepPairs::all_none))]
fn all_pairs(solver: &mut Solver, d: &Decls, steps: &[Step]) -> Result<Vec<(TyId, TyId)>, NoMemory>
    ensures { IfOk result (λ all. (c : Context) → IsRead (store solver.old) d.now.types c → LowersPairs (store solver.old) (store solver.new) (pairs c steps.now) all.items) }
{
    let mut all = Vec::new(solver.alloc);
    for step in steps {
        push_pairs(solver, d, step.equations.as_slice(), &mut all)?;
    }
    Ok(all)
}
