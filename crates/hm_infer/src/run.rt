//! The steps of an item, one after the other, until one has no solution or makes a type too large.
ghost use Rattle.std.specs.Prelude.{◌≡◌, ◌++◌, ◌∷◌, List, [], Some, slice_get, map, IfOk, OnOk};
ghost use Rattle.ml_typing.specs.declared.equation.Equation.{Equation as EquationValue};
ghost use Rattle.ml_typing.specs.Terms.{Context};
ghost use Rattle.ml_typing.specs.Typing.{Pair, pair_of};
ghost use Rattle.hm_terms.specs.Stores.{store, Grows, IsReady};
ghost use Rattle.hm_terms.specs.Contexts.{IsRead};
ghost use Rattle.hm_infer.specs.declared.run.Outcome.TheVariants.{Holds as Went};
ghost use Rattle.hm_infer.specs.Spelled.{SpellsPair, SpellsPairs, PushesSpelled, StepRuns, StepsRun};
ghost use Rattle.hm_infer.specs.Running.{HoldPairs, LowersPairs, Agrees, Comes, Runs, Keeps};

use hm_terms::{Solver, type_of};
use hm_unify::UnifyErr;
use ml_types::{Decls, TyId};
use ml_typing::{Equation, Step, Unknown};
use oxml_base::{NoMemory, Span};
use sqlite_items::at;

/// What came of a step.
#[derive(Clone, Copy, Debug, PartialEq, Eq)]
pub enum Outcome {
    /// Its equations hold.
    Holds,
    /// With the steps before it, it has no solution. The span is that of the first part whose equation
    /// leaves none.
    Unsolved(Span),
    /// A type in its equations has more than 2,000 nodes.
    Large,
}

/// How far the steps of an item went, and what came of the next.
#[derive(Clone, Copy, Debug)]
pub struct Progress {
    /// How many steps hold.
    pub done: usize,
    pub outcome: Outcome,
}

/// The part of the program that the equation of this number speaks of.
fn part_of(equations: &[Equation], number: u32) -> Result<Span, NoMemory>
    ensures { IfOk result (λ part. (e : EquationValue) × (slice_get equations.now number ≡ Some e) × (part ≡ e.part)) }
{
    match at(equations, number as usize) {
        Some(equation) => Ok(equation.part),
        None => Err(NoMemory),
    }
}

/// The two types that an equation makes equal.
fn pair_of(solver: &mut Solver, d: &Decls, equation: &Equation) -> Result<(TyId, TyId), NoMemory>
    ensures lowers { IfOk result (λ p. (c : Context) → IsRead (store solver.old) d.now.types c → LowersPairs (store solver.old) (store solver.new) (pair_of c equation.now ∷ []) (p ∷ [])) }
    ensures spells { IfOk result (λ p. IsReady (store solver.old) → Grows (store solver.old) (store solver.new) × SpellsPair (store solver.new) d.now.types solver.old.slots equation.now solver.new.slots p) }
{
    let left = solver.unknown(equation.left)?;
    let right = type_of(solver, d, &equation.right)?;
    Ok((left, right))
}

/// Appends the pairs of types that the equations make equal.
pub fn push_pairs(
    solver: &mut Solver,
    d: &Decls,
    equations: &[Equation],
    pairs: &mut Vec<(TyId, TyId)>,
) -> Result<(), NoMemory>
    ensures lowers { OnOk result ((c : Context) (before : List Pair) → IsRead (store solver.old) d.now.types c → HoldPairs (store solver.old) before pairs.old.items → LowersPairs (store solver.old) (store solver.new) (before ++ map (pair_of c) equations.now) pairs.new.items) }
    ensures spells { OnOk result (IsReady (store solver.old) → PushesSpelled (store solver.old) (store solver.new) d.now.types solver.old.slots equations.now solver.new.slots pairs.old.items pairs.new.items) }
{
    for equation in equations {
        let pair = pair_of(solver, d, equation)?;
        pairs.push(pair)?;
    }
    Ok(())
}

/// The pairs of types that the equations of a step make equal. Its node has a type from now on.
fn pairs_of(solver: &mut Solver, d: &Decls, step: &Step) -> Result<Vec<(TyId, TyId)>, NoMemory>
    ensures lowers { IfOk result (λ ps. (c : Context) → IsRead (store solver.old) d.now.types c → LowersPairs (store solver.old) (store solver.new) (map (pair_of c) step.now.equations) ps.items) }
    ensures spells { IfOk result (λ ps. IsReady (store solver.old) → Grows (store solver.old) (store solver.new) × SpellsPairs (store solver.new) d.now.types solver.old.slots step.now.equations solver.new.slots ps.items) }
{
    note_node(solver, step.node)?;
    let mut pairs = Vec::new(solver.alloc);
    push_pairs(solver, d, step.equations.as_slice(), &mut pairs)?;
    Ok(pairs)
}

/// The node of a step has a type from now on.
fn note_node(solver: &mut Solver, node: Option<u32>) -> Result<(), NoMemory>
    ensures grows { OnOk result (Grows (store solver.old) (store solver.new)) }
    ensures slots { OnOk result (solver.new.slots ≡ solver.old.slots) }
{
    if let Some(node) = node {
        let _id = solver.unknown(Unknown::Node(node))?;
    }
    Ok(())
}

/// Makes the equations of a step hold, if they have a solution.
pub fn run_step(solver: &mut Solver, d: &Decls, step: &Step) -> Result<Outcome, NoMemory>
    ensures comes { IfOk result (λ o. (c : Context) (before : List Pair) → IsRead (store solver.old) d.now.types c → Agrees (store solver.old) before → Comes (store solver.new) d.now.types c before step.now o) }
    ensures keeps { OnOk result ((c : Context) → IsRead (store solver.old) d.now.types c → Keeps (store solver.old) (store solver.new)) }
    ensures slots { IfOk result (λ o. IsReady (store solver.old) → o ≡ Went → StepRuns d.now.types (store solver.old) solver.old.slots step.now (store solver.new) solver.new.slots) }
{
    let pairs = pairs_of(solver, d, step)?;
    match solver.equate(pairs.as_slice()) {
        Ok(()) => Ok(Outcome::Holds),
        Err(UnifyErr::Clash(number)) => {
            let part = part_of(step.equations.as_slice(), number)?;
            Ok(Outcome::Unsolved(part))
        }
        Err(UnifyErr::Cycle(number)) => {
            let part = part_of(step.equations.as_slice(), number)?;
            Ok(Outcome::Unsolved(part))
        }
        Err(UnifyErr::TooLarge(_)) => Ok(Outcome::Large),
        Err(UnifyErr::NoMemory) => Err(NoMemory),
    }
}

/// Runs the steps from the first on, until one does not hold.
pub fn run_steps(solver: &mut Solver, d: &Decls, steps: &[Step]) -> Result<Progress, NoMemory>
    ensures runs { IfOk result (λ p. (c : Context) → IsRead (store solver.old) d.now.types c → Agrees (store solver.old) [] → Runs (store solver.new) d.now.types c steps.now p) }
    ensures keeps { OnOk result ((c : Context) → IsRead (store solver.old) d.now.types c → Agrees (store solver.old) [] → Keeps (store solver.old) (store solver.new)) }
    ensures slots { IfOk result (λ p. (c : Context) → IsRead (store solver.old) d.now.types c → Agrees (store solver.old) [] → p.outcome ≡ Went → StepsRun d.now.types (store solver.old) solver.old.slots steps.now (store solver.new) solver.new.slots) }
{
    for number in 0..steps.len() {
        let outcome = run_step(solver, d, &steps[number])?;
        if outcome != Outcome::Holds {
            return Ok(Progress {
                done: number,
                outcome,
            });
        }
    }
    Ok(Progress {
        done: steps.len(),
        outcome: Outcome::Holds,
    })
}
