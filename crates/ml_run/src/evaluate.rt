//! Evaluates one expression, with a stack of what is left to do.
ghost use Rattle.std.specs.Prelude.{◌≡◌, IfOk};
ghost use Rattle.ml_meaning.specs.declared.event.Event.{Event};
ghost use Rattle.ml_meaning.specs.Tellings.{Setting};
ghost use Rattle.ml_steps.specs.declared.frame.Next.TheVariants.{Give};
ghost use Rattle.ml_steps.specs.Left.{next_run};
ghost use Rattle.ml_steps.specs.Worlds.{setting_of};
ghost use Rattle.ml_run.specs.Stack.{Began, Pushed, Tells, Turned, evaluated_run};

use ml_meaning::{Ending, Event};
use ml_steps::{Frame, Next, Step, World, choose, closure, resume, visit};
use ml_values::Word;
use oxml_base::NoMemory;

/// How the evaluation of one expression ends.
#[derive(Clone, Copy)]
pub enum Evaluated<'a> {
    Value(Word<'a>),
    End(Ending),
}

/// The frame of a step goes onto the stack.
fn pushed<'a>(frames: &mut Vec<Frame<'a>>, step: Step<'a>) -> Result<Option<Next<'a>>, NoMemory>
    ensures { IfOk result (Pushed step.entry frames.old.items frames.new.items) }
{
    if let Some(frame) = step.frame {
        frames.push(frame)?;
    }
    Ok(Some(step.next))
}

/// The value goes to the last frame; `None` where there is none.
fn give<'t, 'a>(
    world: World<'t, 'a>,
    told: &mut Vec<Event>,
    frames: &mut Vec<Frame<'a>>,
    word: Word<'a>,
) -> Result<Option<Next<'a>>, NoMemory>
    ensures { IfOk result (Turned (setting_of world.entry) told.old.items told.new.items frames.old.items frames.new.items (Give word.entry)) }
{
    match frames.pop() {
        Some(frame) => {
            let step = resume(world, told, frame, word)?;
            pushed(frames, step)
        }
        None => Ok(None),
    }
}

/// One turn: what is done next after it; `None` where nothing is left to do.
fn turn<'t, 'a>(
    world: World<'t, 'a>,
    told: &mut Vec<Event>,
    frames: &mut Vec<Frame<'a>>,
    next: Next<'a>,
) -> Result<Option<Next<'a>>, NoMemory>
    ensures { IfOk result (Turned (setting_of world.entry) told.old.items told.new.items frames.old.items frames.new.items next.entry) }
{
    match next {
        Next::Visit(e, here) => {
            let step = visit(world, told, e, here)?;
            pushed(frames, step)
        }
        Next::Close(node, here) => Ok(Some(closure(world, told, node, here)?)),
        Next::Choose(arms, word, here) => {
            let step = choose(world, told, arms, 0, word, here)?;
            pushed(frames, step)
        }
        Next::Give(word) => give(world, told, frames, word),
        Next::Stop(_) => Ok(None),
    }
}

/// What is at its end, by what would be done next.
fn ended<'a>(next: Next<'a>) -> Result<Evaluated<'a>, NoMemory>
    ensures { (s : Setting Event) → IfOk result (λ e. next_run s next.entry ≡ evaluated_run e) }
{
    match next {
        Next::Give(word) => Ok(Evaluated::Value(word)),
        Next::Stop(ending) => Ok(Evaluated::End(ending)),
        _ => Err(NoMemory),
    }
}

/// Evaluates from here on until nothing is left to do, and appends what is told. After `NoMemory`
/// the first events were appended. No evaluation comes to the bound on the turns.
pub fn evaluate<'t, 'a>(
    world: World<'t, 'a>,
    out: &mut Vec<Event>,
    first: Next<'a>,
) -> Result<Evaluated<'a>, NoMemory>
    ensures ended { IfOk result (λ e. Tells out.old.items out.new.items (next_run (setting_of world.entry) first.entry) (evaluated_run e)) }
    ensures out { Began out.old.items out.new.items (next_run (setting_of world.entry) first.entry) }
{
    let mut told = Vec::new(world.tools.alloc);
    let mut frames = Vec::new(world.tools.alloc);
    let mut next = first;
    'turns: for _ in 0..u64::MAX {
        match turn(world, &mut told, &mut frames, next)? {
            Some(more) => next = more,
            None => return ended(next),
        }
        out.extend_from_slice(told.as_slice())?;
        told.clear();
    }
    Err(NoMemory)
}
