ghost use Rattle.std.specs.Prelude.{◌≡◌, map, IfOk};
ghost use Rattle.std.specs.Option.{option_map};
ghost use Rattle.ml_numbers.specs.Steps.{each, perhaps};
ghost use Rattle.ml_numbers.specs.Numbered.{numbered_result, numbered_expr, numbered_kind, numbered_arm, numbered_bind, numbered_field};

use crate::next::{Next, node_number};
use crate::pattern::{copied, number_params, number_pattern};
use crate::types::number_type;
use ml_tree::{Arm, Bind, Expr, ExprKind, FieldExpr, TyExpr};
use oxml_base::{Items, NoMemory};
use sqlite_items::Boxed;
use std::alloc::Global;

/// An expression with numbers: its own, then those of its parts.
#[cycle(expressions)]
fn number_expr(alloc: Global, e: &Expr, next: &mut Next) -> Result<Expr, NoMemory>
    ensures { IfOk result (λ out. numbered_expr e.now next.old ≡ (out, next.new)) }
{
    let id = node_number(next)?;
    let kind = number_kind(alloc, &e.kind, next)?;
    Ok(Expr {
        id,
        span: e.span,
        kind,
    })
}

#[cycle(expressions)]
fn number_kind(alloc: Global, kind: &ExprKind, next: &mut Next) -> Result<ExprKind, NoMemory>
    ensures { IfOk result (λ out. numbered_kind kind.now next.old ≡ (out, next.new)) }
{
    match kind {
        ExprKind::Int(value) => Ok(ExprKind::Int(*value)),
        ExprKind::Char(value) => Ok(ExprKind::Char(*value)),
        ExprKind::Text(text) => Ok(ExprKind::Text(copied(alloc, text)?)),
        ExprKind::Name(name) => Ok(ExprKind::Name(*name)),
        ExprKind::Path(place, name) => Ok(ExprKind::Path(*place, *name)),
        ExprKind::Con { name, arg: None } => Ok(ExprKind::Con {
            name: *name,
            arg: None,
        }),
        ExprKind::Con {
            name,
            arg: Some(inner),
        } => {
            let inner = number_boxed(alloc, inner, next)?;
            Ok(ExprKind::Con {
                name: *name,
                arg: Some(inner),
            })
        }
        ExprKind::Cons(one, other) => {
            let one = number_boxed(alloc, one, next)?;
            let other = number_boxed(alloc, other, next)?;
            Ok(ExprKind::Cons(one, other))
        }
        ExprKind::Tuple(parts) => Ok(ExprKind::Tuple(number_exprs(alloc, parts.as_slice(), next)?)),
        ExprKind::List(parts) => Ok(ExprKind::List(number_exprs(alloc, parts.as_slice(), next)?)),
        ExprKind::Fields(list) => Ok(ExprKind::Fields(number_fields(
            alloc,
            list.as_slice(),
            next,
        )?)),
        ExprKind::Field(inner, name) => {
            let inner = number_boxed(alloc, inner, next)?;
            Ok(ExprKind::Field(inner, *name))
        }
        ExprKind::Index(one, other) => {
            let one = number_boxed(alloc, one, next)?;
            let other = number_boxed(alloc, other, next)?;
            Ok(ExprKind::Index(one, other))
        }
        ExprKind::Apply(function, args) => {
            let function = number_boxed(alloc, function, next)?;
            let args = number_exprs(alloc, args.as_slice(), next)?;
            Ok(ExprKind::Apply(function, args))
        }
        ExprKind::Binary(op, one, other) => {
            let one = number_boxed(alloc, one, next)?;
            let other = number_boxed(alloc, other, next)?;
            Ok(ExprKind::Binary(*op, one, other))
        }
        ExprKind::Minus(inner) => Ok(ExprKind::Minus(number_boxed(alloc, inner, next)?)),
        ExprKind::If(condition, branch, None) => {
            let condition = number_boxed(alloc, condition, next)?;
            let branch = number_boxed(alloc, branch, next)?;
            Ok(ExprKind::If(condition, branch, None))
        }
        ExprKind::If(condition, branch, Some(other)) => {
            let condition = number_boxed(alloc, condition, next)?;
            let branch = number_boxed(alloc, branch, next)?;
            let other = number_boxed(alloc, other, next)?;
            Ok(ExprKind::If(condition, branch, Some(other)))
        }
        ExprKind::Let {
            recursive,
            binds,
            body,
        } => {
            let binds = number_binds(alloc, binds.as_slice(), next)?;
            let body = number_boxed(alloc, body, next)?;
            Ok(ExprKind::Let {
                recursive: *recursive,
                binds,
                body,
            })
        }
        ExprKind::Seq(parts) => Ok(ExprKind::Seq(number_exprs(alloc, parts.as_slice(), next)?)),
        ExprKind::Match(scrutinee, arms) => {
            let scrutinee = number_boxed(alloc, scrutinee, next)?;
            let arms = number_arms(alloc, arms.as_slice(), next)?;
            Ok(ExprKind::Match(scrutinee, arms))
        }
        ExprKind::Fun(params, body) => {
            let params = number_params(alloc, params.as_slice(), next)?;
            let body = number_boxed(alloc, body, next)?;
            Ok(ExprKind::Fun(params, body))
        }
        ExprKind::Function(arms) => Ok(ExprKind::Function(number_arms(
            alloc,
            arms.as_slice(),
            next,
        )?)),
        ExprKind::Paren(inner) => Ok(ExprKind::Paren(number_boxed(alloc, inner, next)?)),
        ExprKind::Typed(inner, ty) => {
            let inner = number_boxed(alloc, inner, next)?;
            let ty = number_type(alloc, ty, next)?;
            Ok(ExprKind::Typed(inner, ty))
        }
        ExprKind::Worded(words, inner) => {
            let inner = number_boxed(alloc, inner, next)?;
            Ok(ExprKind::Worded(*words, inner))
        }
        ExprKind::Exclave(inner) => Ok(ExprKind::Exclave(number_boxed(alloc, inner, next)?)),
        ExprKind::Borrow { name, of, body } => {
            let body = number_boxed(alloc, body, next)?;
            Ok(ExprKind::Borrow {
                name: *name,
                of: *of,
                body,
            })
        }
        ExprKind::Overwrite { name, with_con } => {
            let with_con = number_boxed(alloc, with_con, next)?;
            Ok(ExprKind::Overwrite {
                name: *name,
                with_con,
            })
        }
    }
}

#[cycle(expressions)]
fn number_boxed(alloc: Global, e: &Boxed<Expr>, next: &mut Next) -> Result<Boxed<Expr>, NoMemory>
    ensures { IfOk result (λ out. numbered_expr e.now next.old ≡ (out, next.new)) }
{
    Ok(Boxed::new(alloc, number_expr(alloc, e.get(), next)?)?)
}

#[cycle(expressions)]
fn number_field(alloc: Global, field: &FieldExpr, next: &mut Next) -> Result<FieldExpr, NoMemory>
    ensures { IfOk result (λ out. numbered_field field.now next.old ≡ (out, next.new)) }
{
    let id = node_number(next)?;
    let expr = number_expr(alloc, &field.expr, next)?;
    Ok(FieldExpr {
        id,
        name: field.name,
        expr,
    })
}

#[cycle(expressions)]
fn number_guard(
    alloc: Global,
    guard: &Option<Expr>,
    next: &mut Next,
) -> Result<Option<Expr>, NoMemory>
    ensures { IfOk result (λ out. perhaps (option_map numbered_expr guard.now) next.old ≡ (out, next.new)) }
{
    match guard {
        Some(inner) => Ok(Some(number_expr(alloc, inner, next)?)),
        None => Ok(None),
    }
}

#[cycle(expressions)]
fn number_arm(alloc: Global, arm: &Arm, next: &mut Next) -> Result<Arm, NoMemory>
    ensures { IfOk result (λ out. numbered_arm arm.now next.old ≡ (out, next.new)) }
{
    let pat = number_pattern(alloc, &arm.pat, next)?;
    let guard = number_guard(alloc, &arm.guard, next)?;
    let body = number_expr(alloc, &arm.body, next)?;
    Ok(Arm { pat, guard, body })
}

fn number_result(
    alloc: Global,
    result_type: &Option<TyExpr>,
    next: &mut Next,
) -> Result<Option<TyExpr>, NoMemory>
    ensures { IfOk result (λ out. numbered_result result_type.now next.old ≡ (out, next.new)) }
{
    match result_type {
        Some(ty) => Ok(Some(number_type(alloc, ty, next)?)),
        None => Ok(None),
    }
}

#[cycle(expressions)]
fn number_bind(alloc: Global, bind: &Bind, next: &mut Next) -> Result<Bind, NoMemory>
    ensures { IfOk result (λ out. numbered_bind bind.now next.old ≡ (out, next.new)) }
{
    let pat = number_pattern(alloc, &bind.pat, next)?;
    let params = number_params(alloc, bind.params.as_slice(), next)?;
    let result = number_result(alloc, &bind.result, next)?;
    let body = number_expr(alloc, &bind.body, next)?;
    Ok(Bind {
        pat,
        params,
        result,
        body,
    })
}

#[cycle(expressions)]
fn number_exprs(alloc: Global, list: &[Expr], next: &mut Next) -> Result<Items<Expr>, NoMemory>
    ensures { IfOk result (λ out. each (map numbered_expr list.now) next.old ≡ (out, next.new)) }
{
    let mut done = Items::new(alloc);
    for one in list {
        done.push(number_expr(alloc, one, next)?)?;
    }
    Ok(done)
}

#[cycle(expressions)]
fn number_fields(
    alloc: Global,
    list: &[FieldExpr],
    next: &mut Next,
) -> Result<Items<FieldExpr>, NoMemory>
    ensures { IfOk result (λ out. each (map numbered_field list.now) next.old ≡ (out, next.new)) }
{
    let mut done = Items::new(alloc);
    for one in list {
        done.push(number_field(alloc, one, next)?)?;
    }
    Ok(done)
}

#[cycle(expressions)]
fn number_arms(alloc: Global, list: &[Arm], next: &mut Next) -> Result<Items<Arm>, NoMemory>
    ensures { IfOk result (λ out. each (map numbered_arm list.now) next.old ≡ (out, next.new)) }
{
    let mut done = Items::new(alloc);
    for one in list {
        done.push(number_arm(alloc, one, next)?)?;
    }
    Ok(done)
}

/// Bindings with numbers, in the order of the source.
#[cycle(expressions)]
pub fn number_binds(alloc: Global, list: &[Bind], next: &mut Next) -> Result<Items<Bind>, NoMemory>
    ensures { IfOk result (λ out. each (map numbered_bind list.now) next.old ≡ (out, next.new)) }
{
    let mut done = Items::new(alloc);
    for one in list {
        done.push(number_bind(alloc, one, next)?)?;
    }
    Ok(done)
}
