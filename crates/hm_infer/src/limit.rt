//! The first step that makes a type too large, found by running the item again.
ghost use Rattle.std.specs.Prelude.{◌<◌, ◌≤◌, List, ◌++◌, length, take, IfOk, OnOk};
ghost use Rattle.ml_typing.specs.Terms.{Context};
ghost use Rattle.ml_typing.specs.Typing.{Pair, step_pairs};
ghost use Rattle.ml_typing.specs.Refusals.{Fits};
ghost use Rattle.hm_terms.specs.Stores.{store};
ghost use Rattle.hm_terms.specs.Contexts.{IsRead};
ghost use Rattle.hm_infer.specs.Running.{HasNoIds, Agrees, Knowing};
ghost use Rattle.hm_infer.specs.Sizes.{MakesLarge, Narrows, IsFirstLarge};

use crate::run::{Outcome, run_step};
use crate::sizes::any_large;
use hm_terms::Solver;
use ml_types::Decls;
use ml_typing::Step;
use oxml_base::NoMemory;

/// Two numbers of steps: the first make no type too large, and the second make one.
#[derive(Clone, Copy)]
pub struct Bracket {
    pub low: usize,
    pub high: usize,
}

/// Runs a step that has a solution with those before it.
fn run_held(solver: &mut Solver, d: &Decls, step: &Step) -> Result<(), NoMemory>
    ensures { OnOk result ((c : Context) (before : List Pair) → IsRead (store solver.old) d.now.types c → Agrees (store solver.old) before → Knowing (store solver.new) d.now.types c (before ++ step_pairs c step.now)) }
{
    match run_step(solver, d, step)? {
        Outcome::Holds => Ok(()),
        _ => Err(NoMemory),
    }
}

/// Runs the steps, which together make a type too large and of which the first `low` make none, and
/// looks after each further `stride` steps.
fn narrowed(
    solver: &mut Solver,
    d: &Decls,
    steps: &[Step],
    low: usize,
    stride: usize,
) -> Result<Bracket, NoMemory>
    ensures within { IfOk result (λ b. b.high ≤ length steps.now) }
    ensures narrows { IfOk result (λ b. (c : Context) → IsRead (store solver.old) d.now.types c → HasNoIds (store solver.old) → low < length steps.now → Fits c (take low steps.now) → MakesLarge c steps.now → Narrows (store solver.new) d.now.types c steps.now b) }
{
    solver.sound();
    let mut small = low;
    for number in 0..steps.len() {
        if number == small.saturating_add(stride) {
            solver.sound();
            if any_large(solver, &steps[..number])? {
                return Ok(Bracket {
                    low: small,
                    high: number,
                });
            }
            small = number;
        }
        run_held(solver, d, &steps[number])?;
    }
    Ok(Bracket {
        low: small,
        high: steps.len(),
    })
}

/// The place of the first step behind which a type of the steps so far has more than 2,000 nodes, where
/// all of them together make one so large. Each run divides what is left by sixteen.
pub fn first_large(solver: &mut Solver, d: &Decls, steps: &[Step]) -> Result<usize, NoMemory>
    ensures { IfOk result (λ k. (c : Context) → IsRead (store solver.old) d.now.types c → MakesLarge c steps.now → IsFirstLarge c steps.now k) }
{
    let mut low = 0;
    let mut high = steps.len();
    for _run in 0..u64::MAX {
        if high <= low || high - low == 1 {
            return Ok(low);
        }
        let stride = (high - low - 1) / 16 + 1;
        solver.next_item();
        let bracket = narrowed(solver, d, &steps[..high], low, stride)?;
        low = bracket.low;
        high = bracket.high;
    }
    // No search has so many runs.
    Err(NoMemory)
}
