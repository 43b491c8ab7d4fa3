//! Evaluates an item: what its bindings bind, and the names that are bound.
ghost use Rattle.std.specs.Prelude.{◌≡◌, ◌∷◌, [], ◌++◌, IfOk, OnErr, OnOk};
ghost use Rattle.ml_meaning.specs.declared.event.Event.{Event};
ghost use Rattle.ml_meaning.specs.declared.event.Event.TheVariants.{Close, Enter, Leave, Open};
ghost use Rattle.ml_meaning.specs.declared.event.Ending.TheVariants.{Exit};
ghost use Rattle.ml_meaning.specs.Growth.{Begins};
ghost use Rattle.ml_meaning.specs.Patterns.{Env as Bindings};
ghost use Rattle.ml_meaning.specs.Programs as m;
ghost use Rattle.ml_meaning.specs.Tellings.{NoMatch, Setting, failure_line};
ghost use Rattle.ml_values.specs.Shown.{names, value, values_list};
ghost use Rattle.ml_values.specs.Telling.{puts};
ghost use Rattle.ml_steps.specs.Left.{next_run};
ghost use Rattle.ml_steps.specs.Worlds.{setting_of};
ghost use Rattle.ml_run.specs.Stack.{Began, Tells, bound_run, fitted_run, matched_run, several_run, values_run};
ghost use Rattle.ml_run.specs.Whole.{Holds, tops_of};

use crate::evaluate::{Evaluated, evaluate};
use ml_functions::weighed_binds;
use ml_matching::fit_binds;
use ml_meaning::{Ending, Event};
use ml_steps::{Here, Next, World};
use ml_tree::{Bind, ItemKind};
use ml_values::{Env, Failure, Mode, Word, Words, and, fail};
use oxml_base::NoMemory;
use std::alloc::Global;

/// How the evaluation of several expressions ends.
#[derive(Clone, Copy)]
pub enum Several<'a> {
    Values(Words<'a>),
    End(Ending),
}

/// How the evaluation of an item ends: with names that are bound, or with the program.
#[derive(Clone, Copy)]
pub enum Matched<'a> {
    Names(Env<'a>),
    End(Ending),
}

/// What is evaluated for a binding; one with parameters is a function.
fn bound_next<'a>(bind: &'a Bind, fuel: u64) -> Next<'a>
    ensures { (s : Setting Event) → next_run s result ≡ bound_run s bind.entry.now fuel }
{
    let here = Here {
        mode: Mode::Inner,
        env: Env::Nothing,
        fuel,
    };
    if bind.params.len() == 0 {
        return Next::Visit(&bind.body, here);
    }
    Next::Close(bind.pat.id, here)
}

/// Evaluates what the bindings of an item bind, right to left.
fn item_words<'t, 'a>(
    world: World<'t, 'a>,
    out: &mut Vec<Event>,
    binds: &'a [Bind],
    fuel: u64,
) -> Result<Several<'a>, NoMemory>
    ensures ended { IfOk result (λ words. Tells out.old.items out.new.items (values_run (setting_of world.entry) binds.entry.now fuel) (several_run words)) }
    ensures out { Began out.old.items out.new.items (values_run (setting_of world.entry) binds.entry.now fuel) }
{
    let mut words = Words::Empty;
    let mut left = binds;
    while let Some((bind, before)) = left.split_last() {
        match evaluate(world, out, bound_next(bind, fuel))? {
            Evaluated::Value(word) => words = and(world.tools.bump, word, words)?,
            Evaluated::End(ending) => return Ok(Several::End(ending)),
        }
        left = before;
    }
    Ok(Several::Values(words))
}

/// The values of an item are matched with its patterns, left to right.
fn match_words<'t, 'a>(
    world: World<'t, 'a>,
    out: &mut Vec<Event>,
    binds: &'a [Bind],
    words: Words<'a>,
) -> Result<Matched<'a>, NoMemory>
    ensures ended { IfOk result (λ names. Tells out.old.items out.new.items (fitted_run (setting_of world.entry) binds.entry.now (values_list words.entry)) (matched_run names)) }
    ensures out { Began out.old.items out.new.items (fitted_run (setting_of world.entry) binds.entry.now (values_list words.entry)) }
{
    match fit_binds(world.tools, binds, words, Env::Nothing)? {
        Some(names) => Ok(Matched::Names(names)),
        None => Ok(Matched::End(no_match(world.tools.alloc, out)?)),
    }
}

/// A value fits no pattern: its line is told whole, or not at all.
fn no_match(alloc: Global, out: &mut Vec<Event>) -> Result<Ending, NoMemory>
    ensures ended { OnOk result (out.new.items ≡ out.old.items ++ puts 2 (failure_line NoMatch)) }
    ensures ending { IfOk result (λ ending. ending ≡ Exit 2) }
    ensures out { OnErr result (out.new.items ≡ out.old.items) }
{
    let mut told = Vec::new(alloc);
    let ending = fail(&mut told, Failure::NoMatch)?;
    out.extend_from_slice(told.as_slice())?;
    Ok(ending)
}

/// Evaluates what an item binds, right to left, and matches it left to right.
fn item_names<'t, 'a>(
    world: World<'t, 'a>,
    out: &mut Vec<Event>,
    kind: &'a ItemKind,
    fuel: u64,
) -> Result<Matched<'a>, NoMemory>
    ensures ended { IfOk result (λ names. Tells out.old.items out.new.items (m.item_run Event (setting_of world.entry) fuel kind.entry.now) (matched_run names)) }
    ensures out { Began out.old.items out.new.items (m.item_run Event (setting_of world.entry) fuel kind.entry.now) }
{
    match kind {
        ItemKind::Types(_) => Ok(Matched::Names(Env::Nothing)),
        ItemKind::Let {
            recursive: _,
            binds,
        } => match item_words(world, out, binds.as_slice(), fuel)? {
            Several::Values(words) => match_words(world, out, binds.as_slice(), words),
            Several::End(ending) => Ok(Matched::End(ending)),
        },
    }
}

/// The weight of an item; an item of types has no nodes.
fn item_weight(kind: &ItemKind) -> Result<u64, NoMemory>
    ensures { (s : Setting Event) → IfOk result (λ words. words ≡ m.item_weight Event s kind.now) }
{
    match kind {
        ItemKind::Types(_) => Ok(64),
        ItemKind::Let {
            recursive: _,
            binds,
        } => weighed_binds(binds.as_slice()),
    }
}

/// Evaluates an item.
pub fn run_item<'t, 'a>(
    world: World<'t, 'a>,
    out: &mut Vec<Event>,
    kind: &'a ItemKind,
    fuel: u64,
) -> Result<Matched<'a>, NoMemory>
    ensures ended { IfOk result (λ names. Tells out.old.items out.new.items (m.item_evaluated Event (setting_of world.entry) fuel kind.entry.now) (matched_run names)) }
    ensures out { Began out.old.items out.new.items (m.item_evaluated Event (setting_of world.entry) fuel kind.entry.now) }
{
    let weight = item_weight(kind)?;
    enter(out, weight)?;
    match item_names(world, out, kind, fuel)? {
        Matched::Names(names) => {
            leave(out, weight)?;
            Ok(Matched::Names(names))
        }
        Matched::End(ending) => Ok(Matched::End(ending)),
    }
}

/// An item of this weight begins.
fn enter(out: &mut Vec<Event>, weight: u64) -> Result<(), NoMemory>
    ensures all { OnOk result (out.new.items ≡ out.old.items ++ (Enter weight ∷ (Open ∷ []))) }
    ensures out { Begins out.new.items (out.old.items ++ (Enter weight ∷ (Open ∷ []))) }
{
    out.push(Event::Enter { weight })?;
    out.push(Event::Open)?;
    Ok(())
}

/// An item of this weight ends.
fn leave(out: &mut Vec<Event>, weight: u64) -> Result<(), NoMemory>
    ensures all { OnOk result (out.new.items ≡ out.old.items ++ (Close ∷ (Leave weight ∷ []))) }
    ensures out { Begins out.new.items (out.old.items ++ (Close ∷ (Leave weight ∷ []))) }
{
    out.push(Event::Close)?;
    out.push(Event::Leave { weight })?;
    Ok(())
}

/// A name with its value.
#[derive(Clone, Copy)]
struct Top<'a> {
    name: u32,
    word: Word<'a>,
}

/// The names with their values, the latest first.
fn listed<'a>(alloc: Global, env: Env<'a>) -> Result<Vec<Top<'a>>, NoMemory>
    ensures { IfOk result (λ list. tops_of list.items ≡ names env.entry) }
{
    let mut list = Vec::new(alloc);
    let mut rest = env;
    while let Env::And(bound) = rest {
        list.push(Top {
            name: bound.name,
            word: bound.word,
        })?;
        rest = bound.rest;
    }
    Ok(list)
}

/// The top-level names take their values, the latest where a name stands several times.
pub fn set_tops<'a>(
    alloc: Global,
    tops: &mut [Option<Word<'a>>],
    env: Env<'a>,
) -> Result<(), NoMemory>
    ensures { (before : Bindings) → Holds tops.old before → OnOk result (Holds tops.new (names env.entry ++ before)) }
{
    let mut list = listed(alloc, env)?;
    while let Some(top) = list.pop() {
        set_top(tops, top)?;
    }
    Ok(())
}

/// A top-level name takes its value.
#[tactic(auto, using(crate::proofs::Tops::holds_set))]
fn set_top<'a>(tops: &mut [Option<Word<'a>>], top: Top<'a>) -> Result<(), NoMemory>
    ensures { (before : Bindings) → Holds tops.old before → OnOk result (Holds tops.new ((top.entry.name, value top.entry.word) ∷ before)) }
{
    let name = top.name as usize;
    if name < tops.len() {
        tops[name] = Some(top.word);
        return Ok(());
    }
    Err(NoMemory)
}
