//! The steps of expressions: those of an expression's parts from left to right, then its own.
ghost use Rattle.std.specs.Prelude.{◌≡◌, ◌++◌, None, Some, map, OnOk};
ghost use Rattle.std.specs.Option.{option_map};
ghost use Rattle.ml_typing.specs.declared.equation.Term.TheVariants.{Of};
ghost use Rattle.ml_typing.specs.Rows.{steps_of, steps_of_any, all_steps, field_parts};
ghost use Rattle.ml_typing.specs.Steps.{expression, expr_kind, field_expr, arm, bind, arms_steps, bind_steps, binds_steps};
ghost use Rattle.ml_typing.specs.Typing.{names_of};
ghost use Rattle.hm_steps.specs.Blocks.{arm_steps};

use crate::bind_rows::bind_row;
use crate::comparisons::compared;
use crate::expression_rows::row;
use crate::patterns::{field_step, params, pattern, push};
use ml_tree::{Arm, Bind, Expr, ExprKind, FieldExpr, Scoped};
use ml_typing::{Step, Unknown};
use oxml_base::{Items, NoMemory, Span};
use sqlite_items::Boxed;
use std::alloc::Global;

/// Appends the steps of an expression.
#[cycle(expressions)]
pub fn expression(
    alloc: Global,
    s: &Scoped,
    item: u32,
    e: &Expr,
    steps: &mut Items<Step>,
) -> Result<(), NoMemory>
    ensures { OnOk result (steps.new ≡ steps.old ++ steps_of (expression (names_of s.now.refs s.now.types item) e.now)) }
{
    parts(alloc, s, item, e.id, &e.kind, steps)?;
    let equations = row(alloc, s, item, e.id, e.span, &e.kind)?;
    steps.push(Step {
        span: e.span,
        node: Some(e.id),
        equations,
        compared: compared(e.id, &e.kind),
    })?;
    Ok(())
}

/// Appends the steps of the parts of an expression.
#[cycle(expressions)]
fn parts(
    alloc: Global,
    s: &Scoped,
    item: u32,
    n: u32,
    kind: &ExprKind,
    steps: &mut Items<Step>,
) -> Result<(), NoMemory>
    ensures { OnOk result (steps.new ≡ steps.old ++ (expr_kind (names_of s.now.refs s.now.types item) kind.now).before n) }
{
    match kind {
        ExprKind::Con { name: _, arg } => {
            optional(alloc, s, item, arg, steps)?;
            Ok(())
        }
        ExprKind::Cons(first, second) => {
            expression(alloc, s, item, first.get(), steps)?;
            expression(alloc, s, item, second.get(), steps)?;
            Ok(())
        }
        ExprKind::Index(first, second) => {
            expression(alloc, s, item, first.get(), steps)?;
            expression(alloc, s, item, second.get(), steps)?;
            Ok(())
        }
        ExprKind::Binary(_, first, second) => {
            expression(alloc, s, item, first.get(), steps)?;
            expression(alloc, s, item, second.get(), steps)?;
            Ok(())
        }
        ExprKind::Tuple(list) => {
            expressions(alloc, s, item, list.as_slice(), steps)?;
            Ok(())
        }
        ExprKind::List(list) => {
            expressions(alloc, s, item, list.as_slice(), steps)?;
            Ok(())
        }
        ExprKind::Seq(list) => {
            expressions(alloc, s, item, list.as_slice(), steps)?;
            Ok(())
        }
        ExprKind::Fields(list) => {
            fields(alloc, s, item, list.as_slice(), steps)?;
            Ok(())
        }
        ExprKind::Apply(function, args) => {
            expression(alloc, s, item, function.get(), steps)?;
            expressions(alloc, s, item, args.as_slice(), steps)?;
            Ok(())
        }
        ExprKind::If(condition, branch, other) => {
            expression(alloc, s, item, condition.get(), steps)?;
            expression(alloc, s, item, branch.get(), steps)?;
            optional(alloc, s, item, other, steps)?;
            Ok(())
        }
        ExprKind::Let {
            recursive: _,
            binds: list,
            body,
        } => {
            binds(alloc, s, item, list.as_slice(), steps)?;
            expression(alloc, s, item, body.get(), steps)?;
            Ok(())
        }
        ExprKind::Match(scrutinee, list) => {
            let inner = scrutinee.get();
            expression(alloc, s, item, inner, steps)?;
            let matched = Unknown::Node(inner.id);
            arms(alloc, s, item, list.as_slice(), matched, steps)?;
            Ok(())
        }
        ExprKind::Fun(list, body) => {
            params(alloc, s, item, list.as_slice(), steps)?;
            expression(alloc, s, item, body.get(), steps)?;
            Ok(())
        }
        ExprKind::Function(list) => {
            arms(alloc, s, item, list.as_slice(), Unknown::Fresh(n, 0), steps)?;
            Ok(())
        }
        ExprKind::Field(inner, _) => {
            expression(alloc, s, item, inner.get(), steps)?;
            Ok(())
        }
        ExprKind::Minus(inner) => {
            expression(alloc, s, item, inner.get(), steps)?;
            Ok(())
        }
        ExprKind::Paren(inner) => {
            expression(alloc, s, item, inner.get(), steps)?;
            Ok(())
        }
        ExprKind::Typed(inner, _) => {
            expression(alloc, s, item, inner.get(), steps)?;
            Ok(())
        }
        ExprKind::Worded(_, inner) => {
            expression(alloc, s, item, inner.get(), steps)?;
            Ok(())
        }
        ExprKind::Exclave(inner) => {
            expression(alloc, s, item, inner.get(), steps)?;
            Ok(())
        }
        ExprKind::Borrow {
            name: _,
            of: _,
            body: inner,
        } => {
            expression(alloc, s, item, inner.get(), steps)?;
            Ok(())
        }
        ExprKind::Overwrite {
            name: _,
            with_con: inner,
        } => {
            expression(alloc, s, item, inner.get(), steps)?;
            Ok(())
        }
        ExprKind::Int(_) => Ok(()),
        ExprKind::Char(_) => Ok(()),
        ExprKind::Text(_) => Ok(()),
        ExprKind::Name(_) => Ok(()),
        ExprKind::Path(_, _) => Ok(()),
    }
}

/// Appends the steps of a constructor's argument or of an `else` branch.
#[cycle(expressions)]
fn optional(
    alloc: Global,
    s: &Scoped,
    item: u32,
    part: &Option<Boxed<Expr>>,
    steps: &mut Items<Step>,
) -> Result<(), NoMemory>
    ensures { OnOk result (steps.new ≡ steps.old ++ steps_of_any (option_map (expression (names_of s.now.refs s.now.types item)) part.now)) }
{
    match part {
        Some(inner) => {
            expression(alloc, s, item, inner.get(), steps)?;
            Ok(())
        }
        None => Ok(()),
    }
}

#[cycle(expressions)]
fn expressions(
    alloc: Global,
    s: &Scoped,
    item: u32,
    list: &[Expr],
    steps: &mut Items<Step>,
) -> Result<(), NoMemory>
    ensures { OnOk result (steps.new ≡ steps.old ++ all_steps (map (expression (names_of s.now.refs s.now.types item)) list.now)) }
{
    for e in list {
        expression(alloc, s, item, e, steps)?;
    }
    Ok(())
}

#[cycle(expressions)]
fn fields(
    alloc: Global,
    s: &Scoped,
    item: u32,
    list: &[FieldExpr],
    steps: &mut Items<Step>,
) -> Result<(), NoMemory>
    ensures { OnOk result (steps.new ≡ steps.old ++ all_steps (field_parts (map (field_expr (names_of s.now.refs s.now.types item)) list.now))) }
{
    for one in list {
        field(alloc, s, item, one, steps)?;
    }
    Ok(())
}

#[cycle(expressions)]
fn field(
    alloc: Global,
    s: &Scoped,
    item: u32,
    one: &FieldExpr,
    steps: &mut Items<Step>,
) -> Result<(), NoMemory>
    ensures { OnOk result (steps.new ≡ steps.old ++ steps_of (field_expr (names_of s.now.refs s.now.types item) one.now).part) }
{
    expression(alloc, s, item, &one.expr, steps)?;
    field_step(alloc, one.id, one.name, one.expr.id, one.expr.span, steps)?;
    Ok(())
}

#[cycle(expressions)]
fn arms(
    alloc: Global,
    s: &Scoped,
    item: u32,
    list: &[Arm],
    scrutinee: Unknown,
    steps: &mut Items<Step>,
) -> Result<(), NoMemory>
    ensures { OnOk result (steps.new ≡ steps.old ++ arms_steps (Of scrutinee) (map (arm (names_of s.now.refs s.now.types item)) list.now)) }
{
    for one in list {
        arm(alloc, s, item, one, scrutinee, steps)?;
    }
    Ok(())
}

#[cycle(expressions)]
fn arm(
    alloc: Global,
    s: &Scoped,
    item: u32,
    one: &Arm,
    scrutinee: Unknown,
    steps: &mut Items<Step>,
) -> Result<(), NoMemory>
    ensures { OnOk result (steps.new ≡ steps.old ++ arm_steps (Of scrutinee) (arm (names_of s.now.refs s.now.types item) one.now)) }
{
    pattern(alloc, s, item, &one.pat, Some(scrutinee), steps)?;
    guard(alloc, s, item, &one.guard, steps)?;
    expression(alloc, s, item, &one.body, steps)?;
    Ok(())
}

#[cycle(expressions)]
fn guard(
    alloc: Global,
    s: &Scoped,
    item: u32,
    guard: &Option<Expr>,
    steps: &mut Items<Step>,
) -> Result<(), NoMemory>
    ensures { OnOk result (steps.new ≡ steps.old ++ steps_of_any (option_map (expression (names_of s.now.refs s.now.types item)) guard.now)) }
{
    match guard {
        Some(e) => {
            expression(alloc, s, item, e, steps)?;
            Ok(())
        }
        None => Ok(()),
    }
}

/// Appends the steps of the binds of one `let`.
#[cycle(expressions)]
pub fn binds(
    alloc: Global,
    s: &Scoped,
    item: u32,
    list: &[Bind],
    steps: &mut Items<Step>,
) -> Result<(), NoMemory>
    ensures { OnOk result (steps.new ≡ steps.old ++ binds_steps (map (bind (names_of s.now.refs s.now.types item)) list.now)) }
{
    for one in list {
        bind(alloc, s, item, one, steps)?;
    }
    Ok(())
}

/// Appends the steps of a bind, its own behind those of its parts.
#[cycle(expressions)]
fn bind(
    alloc: Global,
    s: &Scoped,
    item: u32,
    one: &Bind,
    steps: &mut Items<Step>,
) -> Result<(), NoMemory>
    ensures { OnOk result (steps.new ≡ steps.old ++ bind_steps (bind (names_of s.now.refs s.now.types item) one.now)) }
{
    pattern(alloc, s, item, &one.pat, None, steps)?;
    params(alloc, s, item, one.params.as_slice(), steps)?;
    expression(alloc, s, item, &one.body, steps)?;
    let whole = Span {
        start: one.pat.span.start,
        end: one.body.span.end,
    };
    let equations = bind_row(alloc, s, item, one)?;
    push(steps, whole, None, equations)?;
    Ok(())
}
