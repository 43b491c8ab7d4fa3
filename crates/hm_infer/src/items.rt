//! One item: its steps, its comparisons, and what it leaves for the items behind it.
ghost use Rattle.std.specs.Prelude.{◌≡◌, ◌++◌, ◌∷◌, ℕ, List, [], None, nat_eq, take, OnOk, IfOk, IfErr};
ghost use Rattle.std.specs.HashMap.{get};
ghost use Rattle.ml_typing.specs.Terms.{Context};
ghost use Rattle.ml_typing.specs.Typing.{Assignment, ItemSteps, behind_all, steps_of_item};
ghost use Rattle.hm_terms.specs.Stores.{store};
ghost use Rattle.hm_terms.specs.Contexts.{IsRead};
ghost use Rattle.hm_infer.specs.declared.run.Outcome.TheVariants.{Holds as Went};
ghost use Rattle.hm_infer.specs.Spelled.{StepsRun, ItemRuns};
ghost use Rattle.hm_infer.specs.Running.{HasNoIds, Runs, Keeps};
ghost use Rattle.hm_infer.specs.Answers.{Checked, IsItemFault, IsLimitAt, IsRefusedAt, Behind, SomeBehind};
ghost use Rattle.hm_infer.specs.Closing.{Compared, Leaves};

use crate::comparisons::bad_comparison;
use crate::error::InferErr;
use crate::limit::first_large;
use crate::rules::rule_of;
use crate::run::{Outcome, Progress, run_steps};
use crate::schemes::{close_item, note_nodes};
use crate::sizes::any_large;
use hm_steps::{item_binders, item_steps};
use hm_terms::Solver;
use ml_tree::{Item, Scoped};
use ml_types::{Decls, TyId};
use ml_typing::Step;
use oxml_base::{Limit, NoMemory, Refusal, Span};
use sqlite_items::at;
use std::alloc::Global;
use std::collections::HashMap;

/// What was found of the items so far.
#[derive(Drop)]
pub struct Found {
    /// The types of their nodes.
    pub nodes: HashMap<u32, TyId>,
    /// The span of the first comparison at a type that has none.
    pub bad: Option<Span>,
}

impl Found {
    /// Nothing was found.
    pub fn new(alloc: Global) -> Found
        ensures nodes { (n : ℕ) → get nat_eq result.nodes n ≡ None }
        ensures bad { result.bad ≡ None }
    {
        Found {
            nodes: HashMap::new(alloc),
            bad: None,
        }
    }
}

/// Runs the steps of an item, each of which must have a solution and make no type too large.
fn check_item(solver: &mut Solver, d: &Decls, steps: &[Step]) -> Result<(), InferErr>
    ensures ok { OnOk result ((c : Context) → IsRead (store solver.old) d.now.types c → HasNoIds (store solver.old) → Checked (store solver.new) d.now.types c steps.now) }
    ensures keeps { OnOk result ((c : Context) → IsRead (store solver.old) d.now.types c → HasNoIds (store solver.old) → Keeps (store solver.old) (store solver.new)) }
    ensures slots { OnOk result ((c : Context) → IsRead (store solver.old) d.now.types c → HasNoIds (store solver.old) → StepsRun d.now.types (store solver.old) solver.old.slots steps.now (store solver.new) solver.new.slots) }
    ensures err { IfErr result (λ e. (c : Context) → IsRead (store solver.old) d.now.types c → HasNoIds (store solver.old) → IsItemFault c steps.now e) }
{
    solver.sound();
    let progress = run_steps(solver, d, steps)?;
    judge(solver, d, steps, progress)
}

/// What became of the steps of an item, of which so many hold.
#[tactic(auto, using(crate::proofs::Faults::judged_held))]
fn judge(solver: &mut Solver, d: &Decls, steps: &[Step], progress: Progress) -> Result<(), InferErr>
    ensures ok { OnOk result ((c : Context) → Runs (store solver.old) d.now.types c steps.now progress → Checked (store solver.new) d.now.types c steps.now) }
    ensures same { OnOk result (store solver.new ≡ store solver.old) }
    ensures went { OnOk result (progress.outcome ≡ Went) }
    ensures slots { OnOk result (solver.new.slots ≡ solver.old.slots) }
    ensures err { IfErr result (λ e. (c : Context) → Runs (store solver.old) d.now.types c steps.now progress → IsItemFault c steps.now e) }
{
    solver.sound();
    let done = front(steps, progress.done)?;
    let large = any_large(solver, done)?;
    if large {
        let place = first_large(solver, d, done)?;
        return too_large(steps, place);
    }
    match progress.outcome {
        Outcome::Holds => Ok(()),
        Outcome::Large => too_large(steps, progress.done),
        Outcome::Unsolved(span) => unsolved(solver, d, steps, progress.done, span),
    }
}

/// The first steps, so many.
fn front(steps: &[Step], count: usize) -> Result<&[Step], NoMemory>
    ensures { IfOk result (λ f. f.now ≡ take count steps.now) }
{
    steps.get(..count).ok_or(NoMemory)
}

/// The limit at the step of this place.
fn too_large(steps: &[Step], place: usize) -> Result<(), InferErr>
    ensures ok { OnOk result ⊥ }
    ensures err { IfErr result (λ e. IsLimitAt steps.now place e) }
{
    match at(steps, place) {
        Some(step) => Err(InferErr::Limit(Limit::TypeSize(2001), step.span)),
        None => Err(InferErr::NoMemory),
    }
}

/// The rule that refuses the steps up to that of this place, at this part of the program.
fn unsolved(
    solver: &mut Solver,
    d: &Decls,
    steps: &[Step],
    place: usize,
    span: Span,
) -> Result<(), InferErr>
    ensures ok { OnOk result ⊥ }
    ensures err { IfErr result (λ e. (c : Context) → IsRead (store solver.old) d.now.types c → IsRefusedAt c steps.now place span e) }
{
    let Some(behind) = place.checked_add(1) else {
        return Err(InferErr::NoMemory)
    };
    let behind_steps = front(steps, behind)?;
    let rule = rule_of(solver, d, behind_steps)?;
    Err(InferErr::Refused(Refusal { rule, span }))
}

/// The types of an item behind those before it.
pub fn infer_item(
    solver: &mut Solver,
    s: &Scoped,
    d: &Decls,
    item: &Item,
    found: &mut Found,
) -> Result<(), InferErr>
    ensures ok { OnOk result ((c : Context) (items : List ItemSteps) (types : List Assignment) → Behind (store solver.old) d.now.types c items types found.old → SomeBehind (store solver.new) d.now.types c (items ++ steps_of_item s.now.refs s.now.types item.now ∷ []) found.new) }
    ensures err { IfErr result (λ e. (c : Context) (items : List ItemSteps) (types : List Assignment) → Behind (store solver.old) d.now.types c items types found.old → IsItemFault (behind_all c types items) (steps_of_item s.now.refs s.now.types item.now).steps e) }
    ensures slots { OnOk result ((c : Context) → IsRead (store solver.old) d.now.types c → HasNoIds (store solver.old) → ItemRuns d.now.types (store solver.old) solver.old.slots (steps_of_item s.now.refs s.now.types item.now) (store solver.new) solver.new.slots) }
{
    let steps = item_steps(solver.alloc, s, item)?;
    let binders = item_binders(solver.alloc, item)?;
    if let Err(error) = check_item(solver, d, steps.as_slice()) {
        return Err(error);
    }
    solver.sound();
    leave_item(solver, steps.as_slice(), binders.as_slice(), found)?;
    solver.sound();
    Ok(())
}

/// Notes what an item leaves, and forgets its unknowns.
fn leave_item(
    solver: &mut Solver,
    steps: &[Step],
    binders: &[u32],
    found: &mut Found,
) -> Result<(), NoMemory>
    ensures leaves { OnOk result (Leaves (store solver.old) (store solver.new) steps.now binders.now found.old found.new) }
    ensures slots { OnOk result (solver.new.slots ≡ solver.old.slots) }
{
    found.bad = first_bad(solver, steps, found.bad)?;
    note_nodes(solver, steps, &mut found.nodes)?;
    close_item(solver, binders)?;
    solver.next_item();
    Ok(())
}

/// The first bad comparison of the items before, or else of these steps.
fn first_bad(
    solver: &Solver,
    steps: &[Step],
    before: Option<Span>,
) -> Result<Option<Span>, NoMemory>
    ensures { IfOk result (Compared (store solver.now) steps.now before) }
{
    match before {
        Some(span) => Ok(Some(span)),
        None => bad_comparison(solver, steps),
    }
}
