//! How the evaluation of an expression begins.
ghost use Rattle.std.specs.Prelude.{◌≡◌, List, Some, IfOk, map};
ghost use Rattle.std.specs.Option.{option_map};
ghost use Rattle.ml_meaning.specs.declared.event.Event.{Event};
ghost use Rattle.ml_meaning.specs.Evaluation as m;
ghost use Rattle.ml_meaning.specs.Programs.{evaluate, expr_meaning};
ghost use Rattle.ml_meaning.specs.Values.{Value};
ghost use Rattle.ml_meaning.specs.Tellings as t;
ghost use Rattle.ml_meaning.specs.Tellings.{Setting};
ghost use Rattle.ml_words.specs.Named.{targets};
ghost use Rattle.ml_values.specs.Givings.{Plainly};
ghost use Rattle.ml_values.specs.Shown.{names, value};
ghost use Rattle.ml_steps.specs.declared.frame.Here.{Here};
ghost use Rattle.ml_steps.specs.Left.{Nexts, Steps, all_parts_run, application_run, at_place, borrow_run, chain_run, con_run, evaluated, finish_run, kind_run, name_run, operation_form, operation_or_run, parts_runs, several, sequence_run, step_run};
ghost use Rattle.ml_steps.specs.Worlds.{setting_of};

use crate::closures::closure;
use crate::finish::finish;
use crate::frame::{Finish, Here, Next, Parts, Step, Then, evaluate_then, go_on, go_on_then};
use crate::parts::advance;
use crate::world::World;
use ml_meaning::Event;
use ml_tree::{BinOp, ConName, Expr, ExprKind, Op, Ref};
use ml_values::{Code, Mode, Word, Words, bind, close, local};
use ml_words::{constructor_place, field_place, operation, operation_arity, target, wrapped};
use oxml_base::NoMemory;

/// What a name stands for.
fn named<'t, 'a>(world: World<'t, 'a>, node: u32, here: Here<'a>) -> Option<Word<'a>>
    ensures { option_map value result ≡ t.named Event (setting_of world.entry) (targets world.entry.tools.scoped.now node) (names here.entry.env) }
{
    match target(world.tools.scoped, node) {
        Some(Ref::Top(name)) => world.top(name),
        Some(Ref::Local(name)) => local(here.env, name),
        Some(Ref::Operation(op)) => Some(Word::Function(
            Code::Primitive(op),
            Words::Empty,
            Words::Empty,
        )),
        _ => None,
    }
}

fn visit_name<'t, 'a>(
    world: World<'t, 'a>,
    told: &mut Vec<Event>,
    node: u32,
    here: Here<'a>,
) -> Result<Next<'a>, NoMemory>
    ensures { Nexts (setting_of world.entry) told.old.items told.new.items result (name_run (setting_of world.entry) node here.entry) }
{
    match named(world, node, here) {
        Some(word) => finish(told, here.mode, word),
        None => Err(NoMemory),
    }
}

/// All parts, and then what is done with them.
fn visit_parts<'t, 'a>(
    world: World<'t, 'a>,
    told: &mut Vec<Event>,
    parts: Parts<'a>,
    last: Finish<'a>,
    here: Here<'a>,
) -> Result<Step<'a>, NoMemory>
    ensures { Steps (setting_of world.entry) told.old.items told.new.items result (all_parts_run (setting_of world.entry) parts.entry last.entry here.entry) }
{
    advance(world, told, parts, parts.len(), Words::Empty, last, here)
}

/// The fields of a constructor: the one argument, or the parts of a tuple for several fields.
fn fields_of<'a>(count: usize, arg: &'a Expr) -> Parts<'a>
    ensures { (s : Setting Event) → parts_runs s result ≡ m.fields_of Event s count (expr_meaning Event s arg.entry.now) }
{
    if count == 1 {
        return Parts::One(arg);
    }
    match tuple_of(arg) {
        Some(parts) => Parts::Many(parts),
        None => Parts::One(arg),
    }
}

/// The parts of a tuple, under parentheses too.
fn tuple_of<'a>(e: &'a Expr) -> Option<&'a [Expr]>
    ensures { (s : Setting Event) → option_map (λ es. map (evaluate Event s) es.now) result ≡ several (expr_meaning Event s e.entry.now) }
{
    match &e.kind {
        ExprKind::Tuple(parts) => Some(parts.as_slice()),
        ExprKind::Paren(inner) => tuple_of(inner.get()),
        _ => None,
    }
}

fn visit_con<'t, 'a>(
    world: World<'t, 'a>,
    told: &mut Vec<Event>,
    node: u32,
    name: ConName,
    arg: Option<&'a Expr>,
    here: Here<'a>,
) -> Result<Step<'a>, NoMemory>
    ensures { Steps (setting_of world.entry) told.old.items told.new.items result (con_run (setting_of world.entry) node name arg.entry here.entry) }
{
    let Some(place) = constructor_place(world.tools.scoped, name, node) else {
        return Err(NoMemory);
    };
    match arg {
        None => Ok(go_on(finish(told, here.mode, Word::Constant(place))?)),
        Some(arg) => visit_parts(
            world,
            told,
            fields_of(world.field_count(node), arg),
            Finish::Build(node, place),
            here,
        ),
    }
}

/// A list literal: the elements to the left of the tail, the last first.
pub fn chain<'a>(
    told: &mut Vec<Event>,
    node: u32,
    items: &'a [Expr],
    left: usize,
    tail: Word<'a>,
    here: Here<'a>,
) -> Result<Step<'a>, NoMemory>
    ensures { Plainly (λ s. Steps s told.old.items told.new.items result (chain_run s node items.entry.now left (value tail.entry) here.entry)) }
{
    if left == 0 {
        return Ok(go_on(finish(told, here.mode, tail)?));
    }
    match items.get(left - 1) {
        Some(e) => Ok(evaluate_then(
            e,
            Then::Chain {
                node,
                items,
                left: left - 1,
                tail,
            },
            here,
        )),
        None => Err(NoMemory),
    }
}

/// Expressions one after the other from this one on, each but the last for its events alone.
pub fn sequence<'a>(items: &'a [Expr], from: usize, here: Here<'a>) -> Result<Step<'a>, NoMemory>
    ensures { (s : Setting Event) → IfOk result (λ step. step_run s step ≡ sequence_run s items.entry.now from here.entry) }
{
    match items.get(from) {
        Some(e) => {
            if from < items.len() - 1 {
                return Ok(evaluate_then(e, Then::Sequence(items, from + 1), here));
            }
            Ok(go_on(Next::Visit(e, here)))
        }
        None => Err(NoMemory),
    }
}

/// An application: an operation's name on at least as many arguments as it has is the operation.
fn visit_apply<'t, 'a>(
    world: World<'t, 'a>,
    told: &mut Vec<Event>,
    node: u32,
    function: &'a Expr,
    args: &'a [Expr],
    here: Here<'a>,
) -> Result<Step<'a>, NoMemory>
    ensures { Steps (setting_of world.entry) told.old.items told.new.items result (application_run (setting_of world.entry) node function.entry.now args.entry.now here.entry) }
{
    let last = match named_operation(world, function) {
        Some(op) => operation_or(node, op, function, args.len()),
        None => Finish::Apply(node, function),
    };
    visit_parts(world, told, Parts::Many(args), last, here)
}

/// The operation where there are at least as many arguments as it has; else it is called as a
/// function.
fn operation_or<'a>(node: u32, op: Op, function: &'a Expr, args: usize) -> Finish<'a>
    ensures { (s : Setting Event) (here : Here) (vs : List Value) → finish_run s result here vs ≡ operation_or_run s node op function.entry.now args here vs }
{
    if operation_arity(op) <= args {
        return Finish::Operate(node, op);
    }
    Finish::Apply(node, function)
}

/// The operation whose bare name an expression is.
fn named_operation<'t, 'a>(world: World<'t, 'a>, function: &Expr) -> Option<Op>
    ensures { result ≡ operation_form (expr_meaning Event (setting_of world.entry) function.now) }
{
    match &function.kind {
        ExprKind::Name(_) => operation(world.tools.scoped, function.id),
        ExprKind::Path(_, _) => operation(world.tools.scoped, function.id),
        _ => None,
    }
}

fn visit_binary<'a>(
    node: u32,
    op: BinOp,
    one: &'a Expr,
    other: &'a Expr,
    here: Here<'a>,
) -> Step<'a>
    ensures { (s : Setting Event) → step_run s result ≡ at_place s (m.binary Event s node op (evaluate Event s one.entry.now) (evaluate Event s other.entry.now)) here.entry }
{
    match op {
        BinOp::BoolAnd => evaluate_then(one, Then::BoolAnd(other), here),
        BinOp::BoolOr => evaluate_then(one, Then::BoolOr(other), here),
        _ => evaluate_then(other, Then::Left(node, op, one), here),
    }
}

/// The region is closed before the operand, which is then in tail position no more.
fn visit_exclave<'a>(
    told: &mut Vec<Event>,
    inner: &'a Expr,
    here: Here<'a>,
) -> Result<Step<'a>, NoMemory>
    ensures { Plainly (λ s. Steps s told.old.items told.new.items result (at_place s (m.exclave Event s (evaluate Event s inner.entry.now)) here.entry)) }
{
    match here.mode {
        Mode::Inner => Ok(go_on(Next::Visit(inner, here))),
        Mode::Last(weight) => {
            close(told, here.mode)?;
            Ok(evaluate_then(inner, Then::Exclave(weight), here))
        }
    }
}

fn visit_borrow<'t, 'a>(
    world: World<'t, 'a>,
    told: &mut Vec<Event>,
    node: u32,
    body: &'a Expr,
    here: Here<'a>,
) -> Result<Step<'a>, NoMemory>
    ensures { Steps (setting_of world.entry) told.old.items told.new.items result (borrow_run (setting_of world.entry) node body.entry.now here.entry) }
{
    let Some(word) = named(world, node, here) else {
        return Err(NoMemory);
    };
    told.push(Event::Open)?;
    let env = bind(world.tools.bump, node, word, here.env)?;
    Ok(go_on_then(
        Next::Visit(body, here.with(env).inner()),
        Then::Borrow,
        here,
    ))
}

/// The construction of an overwrite, under parentheses too.
fn visit_overwrite<'t, 'a>(
    world: World<'t, 'a>,
    told: &mut Vec<Event>,
    node: u32,
    built: &'a Expr,
    here: Here<'a>,
) -> Result<Step<'a>, NoMemory>
    ensures { Steps (setting_of world.entry) told.old.items told.new.items result (at_place (setting_of world.entry) (m.overwritten Event (setting_of world.entry) node (expr_meaning Event (setting_of world.entry) built.entry.now).form) here.entry) }
{
    match &built.kind {
        ExprKind::Paren(inner) => visit_overwrite(world, told, node, inner.get(), here),
        ExprKind::Cons(head, tail) => visit_parts(
            world,
            told,
            Parts::Two(head.get(), tail.get()),
            Finish::Overwrite(node, 1),
            here,
        ),
        ExprKind::Con { name, arg } => match arg {
            Some(arg) => overwrite_con(world, told, node, *name, built.id, arg.get(), here),
            None => Err(NoMemory),
        },
        _ => Err(NoMemory),
    }
}

/// An overwrite by a constructor with fields, which the node `of` names.
fn overwrite_con<'t, 'a>(
    world: World<'t, 'a>,
    told: &mut Vec<Event>,
    node: u32,
    name: ConName,
    of: u32,
    arg: &'a Expr,
    here: Here<'a>,
) -> Result<Step<'a>, NoMemory>
    ensures { Steps (setting_of world.entry) told.old.items told.new.items result (at_place (setting_of world.entry) (m.overwritten Event (setting_of world.entry) node (m.constructed Event (setting_of world.entry) of name (Some (expr_meaning Event (setting_of world.entry) arg.entry.now))).form) here.entry) }
{
    let Some(place) = constructor_place(world.tools.scoped, name, of) else {
        return Err(NoMemory);
    };
    visit_parts(
        world,
        told,
        fields_of(world.field_count(of), arg),
        Finish::Overwrite(node, place),
        here,
    )
}

/// One step into an expression.
pub fn visit<'t, 'a>(
    world: World<'t, 'a>,
    told: &mut Vec<Event>,
    e: &'a Expr,
    here: Here<'a>,
) -> Result<Step<'a>, NoMemory>
    ensures { Steps (setting_of world.entry) told.old.items told.new.items result (evaluated (setting_of world.entry) e.entry.now here.entry) }
{
    visit_kind(world, told, e.id, &e.kind, here)
}

/// One step into an expression of this kind, by the number of its node.
fn visit_kind<'t, 'a>(
    world: World<'t, 'a>,
    told: &mut Vec<Event>,
    node: u32,
    kind: &'a ExprKind,
    here: Here<'a>,
) -> Result<Step<'a>, NoMemory>
    ensures { Steps (setting_of world.entry) told.old.items told.new.items result (kind_run (setting_of world.entry) kind.entry.now node here.entry) }
{
    match kind {
        ExprKind::Int(z) => Ok(go_on(finish(told, here.mode, Word::Number(wrapped(*z as i128)))?)),
        ExprKind::Char(byte) => Ok(go_on(finish(told, here.mode, Word::Character(*byte))?)),
        ExprKind::Text(lit) => Ok(go_on(finish(
            told,
            here.mode,
            Word::Bytes(lit.bytes.as_slice()),
        )?)),
        ExprKind::Name(_) => Ok(go_on(visit_name(world, told, node, here)?)),
        ExprKind::Path(_, _) => Ok(go_on(visit_name(world, told, node, here)?)),
        ExprKind::List(items) => chain(
            told,
            node,
            items.as_slice(),
            items.len(),
            Word::Constant(0),
            here,
        ),
        ExprKind::Fun(_, _) => Ok(go_on(closure(world, told, node, here)?)),
        ExprKind::Function(_) => Ok(go_on(closure(world, told, node, here)?)),
        ExprKind::Exclave(inner) => visit_exclave(told, inner.get(), here),
        ExprKind::Seq(items) => sequence(items.as_slice(), 0, here),
        kind => visit_many(world, told, node, kind, here),
    }
}

/// One step into an expression that has several parts first.
fn visit_many<'t, 'a>(
    world: World<'t, 'a>,
    told: &mut Vec<Event>,
    node: u32,
    kind: &'a ExprKind,
    here: Here<'a>,
) -> Result<Step<'a>, NoMemory>
    ensures { Steps (setting_of world.entry) told.old.items told.new.items result (kind_run (setting_of world.entry) kind.entry.now node here.entry) }
{
    match kind {
        ExprKind::Con { name, arg } => match arg {
            Some(arg) => visit_con(world, told, node, *name, Some(arg.get()), here),
            None => visit_con(world, told, node, *name, None, here),
        },
        ExprKind::Cons(head, tail) => visit_parts(
            world,
            told,
            Parts::Two(head.get(), tail.get()),
            Finish::Build(node, 1),
            here,
        ),
        ExprKind::Tuple(parts) => visit_parts(
            world,
            told,
            Parts::Many(parts.as_slice()),
            Finish::Build(node, 0),
            here,
        ),
        ExprKind::Fields(list) => visit_parts(
            world,
            told,
            Parts::Fields(list.as_slice()),
            Finish::Record(node, list.as_slice()),
            here,
        ),
        ExprKind::Index(text, at) => visit_parts(
            world,
            told,
            Parts::Two(text.get(), at.get()),
            Finish::Operate(node, Op::StringGet),
            here,
        ),
        ExprKind::Apply(function, args) => visit_apply(
            world,
            told,
            node,
            function.get(),
            args.as_slice(),
            here,
        ),
        ExprKind::Let {
            recursive: _,
            binds,
            body,
        } => visit_parts(
            world,
            told,
            Parts::Binds(binds.as_slice()),
            Finish::Bind(binds.as_slice(), body.get()),
            here,
        ),
        ExprKind::Overwrite { name: _, with_con } => visit_overwrite(
            world,
            told,
            node,
            with_con.get(),
            here,
        ),
        ExprKind::Borrow {
            name: _,
            of: _,
            body,
        } => visit_borrow(world, told, node, body.get(), here),
        kind => visit_one(world, node, kind, here),
    }
}

/// One step into an expression that has one part first.
fn visit_one<'t, 'a>(
    world: World<'t, 'a>,
    node: u32,
    kind: &'a ExprKind,
    here: Here<'a>,
) -> Result<Step<'a>, NoMemory>
    ensures { IfOk result (λ step. step_run (setting_of world.entry) step ≡ kind_run (setting_of world.entry) kind.entry.now node here.entry) }
{
    match kind {
        ExprKind::Field(inner, _) => Ok(evaluate_then(
            inner.get(),
            Then::Project(field_place(world.tools.scoped, node)),
            here,
        )),
        ExprKind::Binary(op, one, other) => Ok(visit_binary(
            node,
            *op,
            one.get(),
            other.get(),
            here,
        )),
        ExprKind::Minus(inner) => Ok(evaluate_then(inner.get(), Then::Negate, here)),
        ExprKind::If(condition, branch, other) => match other {
            Some(other) => Ok(evaluate_then(
                condition.get(),
                Then::Branch(branch.get(), Some(other.get())),
                here,
            )),
            None => Ok(evaluate_then(condition.get(), Then::Branch(branch.get(), None), here)),
        },
        ExprKind::Match(scrutinee, arms) => Ok(evaluate_then(
            scrutinee.get(),
            Then::Choose(arms.as_slice()),
            here,
        )),
        ExprKind::Paren(inner) => Ok(go_on(Next::Visit(inner.get(), here))),
        ExprKind::Typed(inner, _) => Ok(go_on(Next::Visit(inner.get(), here))),
        ExprKind::Worded(_, inner) => Ok(evaluate_then(inner.get(), Then::Finish, here)),
        _ => Err(NoMemory),
    }
}
