//! How functions are made, and the names that their bodies begin with.
ghost use Rattle.std.specs.Prelude.{◌≡◌, ◌+◌, ◌++◌, IfOk, OnOk, Some};
ghost use Rattle.ml_meaning.specs.Evaluation as m;
ghost use Rattle.ml_meaning.specs.declared.event.Event.{Event};
ghost use Rattle.ml_values.specs.Givings.{Plainly};
ghost use Rattle.ml_values.specs.Shown.{names, values, values_list};
ghost use Rattle.ml_steps.specs.Left.{Nexts, closed_env, closing_run, closure_run, own_name_of};
ghost use Rattle.ml_steps.specs.Worlds.{setting_of};

use crate::finish::finish;
use crate::frame::{Here, Next};
use crate::world::World;
use ml_functions::Function;
use ml_meaning::Event;
use ml_values::{Code, Env, Word, Words, and, bind, local, made};
use oxml_base::NoMemory;

/// The values of the captures, in their order.
fn captured<'t, 'a>(
    world: World<'t, 'a>,
    captures: &[u32],
    env: Env<'a>,
) -> Result<Words<'a>, NoMemory>
    ensures { IfOk result (λ words. m.captured Event (setting_of world.entry) captures.now (names env.entry) ≡ Some (values_list words)) }
{
    let mut words = Words::Empty;
    for name in captures.iter().rev() {
        let Some(word) = local(env, *name) else {
            return Err(NoMemory);
        };
        words = and(world.tools.bump, word, words)?;
    }
    Ok(words)
}

/// The function of a node is made; one without captures is no block.
pub fn closure<'t, 'a>(
    world: World<'t, 'a>,
    told: &mut Vec<Event>,
    node: u32,
    here: Here<'a>,
) -> Result<Next<'a>, NoMemory>
    ensures { Nexts (setting_of world.entry) told.old.items told.new.items result (closure_run (setting_of world.entry) node here.entry) }
{
    let Some(function) = world.functions.at(node) else {
        return Err(NoMemory);
    };
    close_over(world, told, node, function.captures, here)
}

/// A function of a node with these captures is made.
fn close_over<'t, 'a>(
    world: World<'t, 'a>,
    told: &mut Vec<Event>,
    node: u32,
    captures: &[u32],
    here: Here<'a>,
) -> Result<Next<'a>, NoMemory>
    ensures { Nexts (setting_of world.entry) told.old.items told.new.items result (closing_run (setting_of world.entry) node captures.now here.entry) }
{
    let words = captured(world, captures, here.env)?;
    tell_made(told, node, captures)?;
    finish(
        told,
        here.mode,
        Word::Function(Code::Source(node), words, Words::Empty),
    )
}

/// Tells that a function with these captures is made, where it has any.
fn tell_made(told: &mut Vec<Event>, node: u32, captures: &[u32]) -> Result<(), NoMemory>
    ensures { Plainly (λ s. OnOk result (told.new.items ≡ told.old.items ++ m.function_made Event s node captures.now)) }
{
    if captures.len() == 0 {
        return Ok(());
    }
    made(told, node, words_of(captures.len())?)
}

/// The words of a function with so many captures.
fn words_of(captures: usize) -> Result<u64, NoMemory>
    ensures { IfOk result (λ words. words ≡ captures + 2) }
{
    match (captures as u64).checked_add(2) {
        Some(words) => Ok(words),
        None => Err(NoMemory),
    }
}

/// The name of the function itself, where it is recursive.
fn own_env<'t, 'a>(
    world: World<'t, 'a>,
    node: u32,
    own: Option<u32>,
    captured: Words<'a>,
) -> Result<Env<'a>, NoMemory>
    ensures { IfOk result (λ env. names env ≡ own_name_of (setting_of world.entry) node own (values captured.entry)) }
{
    match own {
        Some(own) => {
            let word = Word::Function(Code::Source(node), captured, Words::Empty);
            bind(world.tools.bump, own, word, Env::Nothing)
        }
        None => Ok(Env::Nothing),
    }
}

/// The names of a function's own and of its captures.
pub fn closed<'t, 'a>(
    world: World<'t, 'a>,
    node: u32,
    function: Function<'a>,
    captured: Words<'a>,
) -> Result<Env<'a>, NoMemory>
    ensures { IfOk result (λ env. names env ≡ closed_env (setting_of world.entry) node function.entry.own function.entry.captures.now (values_list captured.entry)) }
{
    let mut env = own_env(world, node, function.own, captured)?;
    let mut rest = captured;
    for name in function.captures {
        let Words::And(pair) = rest else {
            return Err(NoMemory);
        };
        env = bind(world.tools.bump, *name, pair.first, env)?;
        rest = pair.rest;
    }
    Ok(env)
}
