//! Parts that are evaluated right to left, and what is done where the values of all are there.
ghost use Rattle.std.specs.Prelude.{◌≡◌, ◌+◌, IfOk, OnOk, Some, length};
ghost use Rattle.ml_meaning.specs.declared.event.Event.{Event};
ghost use Rattle.ml_meaning.specs.Evaluation as m;
ghost use Rattle.ml_meaning.specs.Tellings.{Setting};
ghost use Rattle.ml_values.specs.Shown.{value, values_list};
ghost use Rattle.ml_values.specs.Givings.{Plainly, given_run};
ghost use Rattle.ml_steps.specs.Left.{Nexts, Steps, arranged_parts, bound_run, built, finish_run, next_run, operated, over_applied_run, overwritten_run, parts_run, record_run};
ghost use Rattle.ml_steps.specs.Slots.{filled, shown};
ghost use Rattle.ml_steps.specs.Worlds.{setting_of};

use crate::calls::split;
use crate::finish::{failed, finish, finish_given};
use crate::frame::{Finish, Here, Next, Part, Parts, Step, Then, evaluate_then, go_on, go_on_then};
use crate::world::World;
use ml_matching::fit_binds;
use ml_meaning::Event;
use ml_tree::{Bind, Expr, FieldExpr, Op};
use ml_values::{Failure, Given, Word, Words, and, count, made, operate};
use ml_words::{field_place, operation_arity};
use oxml_base::NoMemory;

/// The next part to the left, or what is done where all values are there.
pub fn advance<'t, 'a>(
    world: World<'t, 'a>,
    told: &mut Vec<Event>,
    parts: Parts<'a>,
    left: usize,
    done: Words<'a>,
    last: Finish<'a>,
    here: Here<'a>,
) -> Result<Step<'a>, NoMemory>
    ensures { Steps (setting_of world.entry) told.old.items told.new.items result (parts_run (setting_of world.entry) parts.entry left (values_list done.entry) last.entry here.entry) }
{
    if left == 0 {
        return complete(world, told, last, done, here);
    }
    let then = Then::Parts {
        parts,
        left: left - 1,
        done,
        last,
    };
    match parts.get(left - 1) {
        Some(Part::Evaluate(e)) => Ok(evaluate_then(e, then, here)),
        Some(Part::Close(node)) => Ok(go_on_then(Next::Close(node, here.inner()), then, here)),
        None => Err(NoMemory),
    }
}

/// One word more than a block has parts.
fn block_words(parts: Words) -> Result<u64, NoMemory>
    ensures { IfOk result (λ words. words ≡ length (values_list parts.entry) + 1) }
{
    match count(parts)?.checked_add(1) {
        Some(words) => Ok(words),
        None => Err(NoMemory),
    }
}

/// A block of this place is made.
fn build<'a>(
    told: &mut Vec<Event>,
    node: u32,
    place: u32,
    parts: Words<'a>,
    here: Here<'a>,
) -> Result<Next<'a>, NoMemory>
    ensures { Plainly (λ s. Nexts s told.old.items told.new.items result (built s node (Some place) here.entry (values_list parts.entry))) }
{
    made(told, node, block_words(parts)?)?;
    finish(told, here.mode, Word::Block(place, parts))
}

/// A block is overwritten by one of this place.
fn overwrite<'a>(
    told: &mut Vec<Event>,
    node: u32,
    place: u32,
    parts: Words<'a>,
    here: Here<'a>,
) -> Result<Next<'a>, NoMemory>
    ensures { Plainly (λ s. Nexts s told.old.items told.new.items result (overwritten_run s node place here.entry (values_list parts.entry))) }
{
    let words = block_words(parts)?;
    told.push(Event::Over { node, words })?;
    finish(told, here.mode, Word::Block(place, parts))
}

/// The values in the order of the record's declaration.
fn arranged<'t, 'a>(
    world: World<'t, 'a>,
    fields: &[FieldExpr],
    parts: Words<'a>,
) -> Result<Words<'a>, NoMemory>
    ensures { IfOk result (λ words. arranged_parts (setting_of world.entry) fields.now (values_list parts.entry) ≡ Some (values_list words)) }
{
    let mut slots = Vec::new(world.tools.alloc);
    slots.resize(fields.len(), None)?;
    let mut rest = parts;
    for field in fields {
        let Words::And(pair) = rest else {
            return Err(NoMemory);
        };
        let Some(place) = field_place(world.tools.scoped, field.id) else {
            return Err(NoMemory);
        };
        fill(&mut slots, place, pair.first)?;
        rest = pair.rest;
    }
    all_there(world, slots.as_slice())
}

/// The value of a place that has none yet; the first one stays.
fn fill<'a>(slots: &mut Vec<Option<Word<'a>>>, place: u32, word: Word<'a>) -> Result<(), NoMemory>
    ensures { OnOk result (shown slots.new.items ≡ filled (shown slots.old.items) place (value word.entry)) }
{
    match slots.get(place as usize) {
        Some(None) => {
            slots[place as usize] = Some(word);
            Ok(())
        }
        Some(Some(_)) => Ok(()),
        None => Err(NoMemory),
    }
}

/// The values of all places.
fn all_there<'t, 'a>(
    world: World<'t, 'a>,
    slots: &[Option<Word<'a>>],
) -> Result<Words<'a>, NoMemory>
    ensures { IfOk result (λ words. (s : Setting Event) → m.all_there Event s (shown slots.now) ≡ Some (values_list words)) }
{
    let mut words = Words::Empty;
    let mut left = slots.len();
    while left > 0 {
        match slots[left - 1] {
            Some(word) => words = and(world.tools.bump, word, words)?,
            None => return Err(NoMemory),
        }
        left -= 1;
    }
    Ok(words)
}

/// An operation on its arguments.
fn operate_parts<'t, 'a>(
    world: World<'t, 'a>,
    told: &mut Vec<Event>,
    node: u32,
    op: Op,
    parts: Words<'a>,
    here: Here<'a>,
) -> Result<Next<'a>, NoMemory>
    ensures { Nexts (setting_of world.entry) told.old.items told.new.items result (operated (setting_of world.entry) node op here.entry (values_list parts.entry)) }
{
    let both = split(world, parts, operation_arity(op) as u64)?;
    let given = operate(world.tools, told, Some(node), op, both.first)?;
    match both.rest {
        Words::Empty => finish_given(told, here.mode, given),
        Words::And(_) => over_applied(given),
    }
}

/// What an operation gave is applied to more arguments. No operation gives a function, so it can
/// only end the program.
fn over_applied<'a>(given: Given<'a>) -> Result<Next<'a>, NoMemory>
    ensures { IfOk result (λ next. (s : Setting Event) → next_run s next ≡ over_applied_run s (given_run given.entry)) }
{
    match given {
        Given::End(ending) => Ok(Next::Stop(ending)),
        Given::Value(_) => Err(NoMemory),
    }
}

/// The values are bound in the body.
fn bind_parts<'t, 'a>(
    world: World<'t, 'a>,
    told: &mut Vec<Event>,
    binds: &'a [Bind],
    body: &'a Expr,
    parts: Words<'a>,
    here: Here<'a>,
) -> Result<Next<'a>, NoMemory>
    ensures { Nexts (setting_of world.entry) told.old.items told.new.items result (bound_run (setting_of world.entry) binds.entry.now body.entry.now here.entry (values_list parts.entry)) }
{
    match fit_binds(world.tools, binds, parts, here.env)? {
        Some(env) => Ok(Next::Visit(body, here.with(env))),
        None => failed(told, Failure::NoMatch),
    }
}

/// A record is made.
fn build_record<'t, 'a>(
    world: World<'t, 'a>,
    told: &mut Vec<Event>,
    node: u32,
    fields: &'a [FieldExpr],
    parts: Words<'a>,
    here: Here<'a>,
) -> Result<Next<'a>, NoMemory>
    ensures { Nexts (setting_of world.entry) told.old.items told.new.items result (record_run (setting_of world.entry) node fields.entry.now here.entry (values_list parts.entry)) }
{
    let parts = arranged(world, fields, parts)?;
    build(told, node, 0, parts, here)
}

/// What is done with the values of all parts.
pub fn complete<'t, 'a>(
    world: World<'t, 'a>,
    told: &mut Vec<Event>,
    last: Finish<'a>,
    parts: Words<'a>,
    here: Here<'a>,
) -> Result<Step<'a>, NoMemory>
    ensures { Steps (setting_of world.entry) told.old.items told.new.items result (finish_run (setting_of world.entry) last.entry here.entry (values_list parts.entry)) }
{
    match last {
        Finish::Build(node, place) => Ok(go_on(build(told, node, place, parts, here)?)),
        Finish::Record(node, fields) => Ok(go_on(build_record(
            world, told, node, fields, parts, here,
        )?)),
        Finish::Operate(node, op) => Ok(go_on(operate_parts(world, told, node, op, parts, here)?)),
        Finish::Apply(node, function) => Ok(evaluate_then(
            function,
            Then::Callee(node, parts),
            here,
        )),
        Finish::Bind(binds, body) => Ok(go_on(bind_parts(world, told, binds, body, parts, here)?)),
        Finish::Overwrite(node, place) => Ok(go_on(overwrite(told, node, place, parts, here)?)),
    }
}
