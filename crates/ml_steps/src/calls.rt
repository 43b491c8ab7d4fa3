//! How functions are applied and called.
ghost use Rattle.std.specs.Prelude.{◌≡◌, ◌++◌, IfOk, OnOk, length, map, suc};
ghost use Rattle.ml_meaning.specs.declared.event.Event.{Event};
ghost use Rattle.ml_meaning.specs.Evaluation as m;
ghost use Rattle.ml_functions.specs.Table as table;
ghost use Rattle.ml_values.specs.Givings.{Plainly};
ghost use Rattle.ml_values.specs.Shown.{code_of, names, value, values, values_list};
ghost use Rattle.ml_values.specs.Telling.{mode_of};
ghost use Rattle.ml_steps.specs.Left.{Nexts, Steps, applied_run, apply_run, body_of_call, call_of, called_run, closed_env, entered, partial_run};
ghost use Rattle.ml_steps.specs.Worlds.{setting_of};

use crate::closures::closed;
use crate::finish::{failed, finish_given};
use crate::frame::{Here, Next, Step, Then, go_on, go_on_then};
use crate::world::World;
use ml_functions::{Body, Function};
use ml_matching::fit_params;
use ml_meaning::{Ending, Event};
use ml_values::{Code, Failure, Mode, Word, Words, and, close, count, leave, made, operate};
use oxml_base::NoMemory;

/// The values of one list, and then those of another.
fn append<'t, 'a>(
    world: World<'t, 'a>,
    first: Words<'a>,
    second: Words<'a>,
) -> Result<Words<'a>, NoMemory>
    ensures { IfOk result (λ words. values_list words ≡ values_list first.entry ++ values_list second.entry) }
{
    let mut list = Vec::new(world.tools.alloc);
    let mut rest = first;
    while let Words::And(pair) = rest {
        list.push(pair.first)?;
        rest = pair.rest;
    }
    before(world, list.as_slice(), second)
}

/// The values of a slice before those of a list.
fn before<'t, 'a>(
    world: World<'t, 'a>,
    list: &[Word<'a>],
    rest: Words<'a>,
) -> Result<Words<'a>, NoMemory>
    ensures { IfOk result (λ words. values_list words ≡ map value list.now ++ values_list rest.entry) }
{
    let mut all = rest;
    for word in list.iter().rev() {
        all = and(world.tools.bump, *word, all)?;
    }
    Ok(all)
}

/// The first values of a list, and those behind them.
#[derive(Clone, Copy)]
pub struct Halves<'a> {
    pub first: Words<'a>,
    pub rest: Words<'a>,
}

/// A list of values after so many of them.
pub fn split<'t, 'a>(
    world: World<'t, 'a>,
    words: Words<'a>,
    at: u64,
) -> Result<Halves<'a>, NoMemory>
    ensures parts { IfOk result (λ both. values_list both.first ++ values_list both.rest ≡ values_list words.entry) }
    ensures first { IfOk result (λ both. length (values_list both.first) ≡ at) }
{
    let mut list = Vec::new(world.tools.alloc);
    let mut rest = words;
    for _ in 0..at {
        match rest {
            Words::And(pair) => {
                list.push(pair.first)?;
                rest = pair.rest;
            }
            Words::Empty => return Err(NoMemory),
        }
    }
    let first = before(world, list.as_slice(), Words::Empty)?;
    Ok(Halves { first, rest })
}

/// A function is applied to arguments where it stands: in tail position the region is closed before.
pub fn apply_to<'t, 'a>(
    world: World<'t, 'a>,
    told: &mut Vec<Event>,
    node: u32,
    function: Word<'a>,
    args: Words<'a>,
    here: Here<'a>,
) -> Result<Step<'a>, NoMemory>
    ensures { Steps (setting_of world.entry) told.old.items told.new.items result (apply_run (setting_of world.entry) node here.entry (values_list args.entry) (value function.entry)) }
{
    close(told, here.mode)?;
    apply(world, told, node, function, args, here)
}

/// A function is applied to arguments, the region being closed already: a call where there are
/// enough of them, else a partial application that holds them.
pub fn apply<'t, 'a>(
    world: World<'t, 'a>,
    told: &mut Vec<Event>,
    node: u32,
    function: Word<'a>,
    args: Words<'a>,
    here: Here<'a>,
) -> Result<Step<'a>, NoMemory>
    ensures { Steps (setting_of world.entry) told.old.items told.new.items result (applied_run (setting_of world.entry) node here.entry (values_list args.entry) (value function.entry)) }
{
    let Word::Function(code, captured, held) = function else {
        return Err(NoMemory);
    };
    let arity = world.arity(code) as u64;
    let has = count(held)?;
    if arity <= has {
        return Err(NoMemory);
    }
    let wanted = arity - has;
    if count(args)? < wanted {
        let held = append(world, held, args)?;
        return hold(told, node, code, captured, held, here);
    }
    let both = split(world, args, wanted)?;
    let all = append(world, held, both.first)?;
    apply_all(world, told, node, code, captured, all, both.rest, here)
}

/// A partial application holds these arguments.
fn hold<'a>(
    told: &mut Vec<Event>,
    node: u32,
    code: Code,
    captured: Words<'a>,
    held: Words<'a>,
    here: Here<'a>,
) -> Result<Step<'a>, NoMemory>
    ensures { Plainly (λ s. Steps s told.old.items told.new.items result (partial_run s node here.entry (code_of code) (values captured.entry) (values held.entry))) }
{
    let Some(words) = count(held)?.checked_add(2) else {
        return Err(NoMemory);
    };
    made(told, node, words)?;
    leave(told, here.mode)?;
    Ok(go_on(Next::Give(Word::Function(code, captured, held))))
}

/// A call on as many arguments as the function takes; what it gives is applied to the rest.
fn apply_all<'t, 'a>(
    world: World<'t, 'a>,
    told: &mut Vec<Event>,
    node: u32,
    code: Code,
    captured: Words<'a>,
    all: Words<'a>,
    rest: Words<'a>,
    here: Here<'a>,
) -> Result<Step<'a>, NoMemory>
    ensures { Steps (setting_of world.entry) told.old.items told.new.items result (called_run (setting_of world.entry) node here.entry (values_list rest.entry) (code_of code) (values_list captured.entry) (values_list all.entry)) }
{
    match rest {
        Words::Empty => Ok(go_on(call(world, told, here.mode, code, captured, all, here.fuel)?)),
        Words::And(_) => {
            let next = call(world, told, Mode::Inner, code, captured, all, here.fuel)?;
            Ok(go_on_then(next, Then::Rest(node, rest), here))
        }
    }
}

/// A call begins: it enters, or in tail position takes the place of the call that it ends.
fn enter(told: &mut Vec<Event>, mode: Mode, weight: u64) -> Result<(), NoMemory>
    ensures { OnOk result (told.new.items ≡ told.old.items ++ entered mode weight) }
{
    match mode {
        Mode::Inner => told.push(Event::Enter { weight })?,
        Mode::Last(old) => told.push(Event::Tail { old, new: weight })?,
    }
    told.push(Event::Open)?;
    Ok(())
}

/// A call, on as many arguments as the function takes. Its body has one unit of fuel less; without
/// fuel the run ends.
fn call<'t, 'a>(
    world: World<'t, 'a>,
    told: &mut Vec<Event>,
    mode: Mode,
    code: Code,
    captured: Words<'a>,
    args: Words<'a>,
    fuel: u64,
) -> Result<Next<'a>, NoMemory>
    ensures { Nexts (setting_of world.entry) told.old.items told.new.items result (call_of (setting_of world.entry) fuel mode (code_of code) (values_list captured.entry) (values_list args.entry)) }
{
    if fuel == 0 {
        return Ok(Next::Stop(Ending::More));
    }
    enter(told, mode, world.weight(code))?;
    match code {
        Code::Primitive(op) => {
            let given = operate(world.tools, told, None, op, args)?;
            finish_given(told, Mode::Last(64), given)
        }
        Code::Source(node) => match world.functions.at(node) {
            Some(function) => body(world, told, node, function, captured, args, fuel - 1),
            None => Err(NoMemory),
        },
    }
}

/// The body of a call, its parameters matched with the arguments.
fn body<'t, 'a>(
    world: World<'t, 'a>,
    told: &mut Vec<Event>,
    node: u32,
    function: Function<'a>,
    captured: Words<'a>,
    args: Words<'a>,
    fuel: u64,
) -> Result<Next<'a>, NoMemory>
    ensures { Nexts (setting_of world.entry) told.old.items told.new.items result (body_of_call (setting_of world.entry) (table.code_of function.entry) fuel (closed_env (setting_of world.entry) node function.entry.own function.entry.captures.now (values_list captured.entry)) (values_list args.entry)) }
{
    let env = closed(world, node, function, captured)?;
    let here = Here {
        mode: Mode::Last(function.weight),
        env,
        fuel,
    };
    match function.body {
        Body::Single(e) => match fit_params(world.tools, function.params, args, env)? {
            Some(env) => Ok(Next::Visit(e, here.with(env))),
            None => failed(told, Failure::NoMatch),
        },
        Body::Cases(arms) => match args {
            Words::And(pair) => match pair.rest {
                Words::Empty => Ok(Next::Choose(arms, pair.first, here)),
                Words::And(_) => Err(NoMemory),
            },
            Words::Empty => Err(NoMemory),
        },
    }
}
