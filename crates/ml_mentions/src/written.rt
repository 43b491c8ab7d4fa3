//! The types that are written in patterns and expressions.
ghost use Rattle.std.specs.Prelude.{◌≡◌, ◌++◌, map, IfOk, OnOk};
ghost use Rattle.std.specs.Option.{option_map};
ghost use Rattle.ml_mentions.specs.Lists.{all};
ghost use Rattle.ml_mentions.specs.Mentions.{mentions};
ghost use Rattle.ml_mentions.specs.Written.{perhaps, in_pattern, in_pattern_kind, in_field_pattern, in_param, result_type, in_expr, in_kind, in_arm, in_bind, in_field};
ghost use Rattle.ml_mentions.specs.Programs.{kind_annotations, annotations};

use crate::mentions::{Mention, push_mentions};
use ml_tree::{
    Arm, Bind, Expr, ExprKind, FieldExpr, FieldPat, Item, ItemKind, Param, Pat, PatKind, TyExpr,
};
use oxml_base::{Items, NoMemory};
use sqlite_items::Boxed;
use std::alloc::Global;

#[cycle(patterns)]
fn pattern(pat: &Pat, found: &mut Items<Mention>) -> Result<(), NoMemory>
    ensures { OnOk result (found.new ≡ found.old ++ in_pattern pat.now) }
{
    pattern_kind(&pat.kind, found)
}

#[cycle(patterns)]
fn pattern_kind(kind: &PatKind, found: &mut Items<Mention>) -> Result<(), NoMemory>
    ensures { OnOk result (found.new ≡ found.old ++ in_pattern_kind kind.now) }
{
    match kind {
        PatKind::Any => Ok(()),
        PatKind::Name(_, _) => Ok(()),
        PatKind::Int(_) => Ok(()),
        PatKind::Char(_) => Ok(()),
        PatKind::Text(_) => Ok(()),
        PatKind::Con { name: _, arg: None } => Ok(()),
        PatKind::Con {
            name: _,
            arg: Some(inner),
        } => pattern(inner.get(), found),
        PatKind::Cons(one, other) => {
            pattern(one.get(), found)?;
            pattern(other.get(), found)
        }
        PatKind::Tuple(parts) => patterns(parts.as_slice(), found),
        PatKind::List(parts) => patterns(parts.as_slice(), found),
        PatKind::Fields { list, rest: _ } => field_patterns(list.as_slice(), found),
        PatKind::Or(one, other) => {
            pattern(one.get(), found)?;
            pattern(other.get(), found)
        }
        PatKind::Named(inner, _) => pattern(inner.get(), found),
        PatKind::Typed(inner, ty) => {
            pattern(inner.get(), found)?;
            push_mentions(ty, found)
        }
        PatKind::Paren(inner) => pattern(inner.get(), found),
    }
}

#[cycle(patterns)]
fn field_pattern(field: &FieldPat, found: &mut Items<Mention>) -> Result<(), NoMemory>
    ensures { OnOk result (found.new ≡ found.old ++ in_field_pattern field.now) }
{
    pattern(&field.pat, found)
}

#[cycle(patterns)]
fn patterns(list: &[Pat], found: &mut Items<Mention>) -> Result<(), NoMemory>
    ensures { OnOk result (found.new ≡ found.old ++ all (map in_pattern list.now)) }
{
    for one in list {
        pattern(one, found)?;
    }
    Ok(())
}

#[cycle(patterns)]
fn field_patterns(list: &[FieldPat], found: &mut Items<Mention>) -> Result<(), NoMemory>
    ensures { OnOk result (found.new ≡ found.old ++ all (map in_field_pattern list.now)) }
{
    for one in list {
        field_pattern(one, found)?;
    }
    Ok(())
}

fn params(list: &[Param], found: &mut Items<Mention>) -> Result<(), NoMemory>
    ensures { OnOk result (found.new ≡ found.old ++ all (map in_param list.now)) }
{
    for one in list {
        pattern(&one.pat, found)?;
    }
    Ok(())
}

/// The type of a result, where it is written.
fn result_type(written: &Option<TyExpr>, found: &mut Items<Mention>) -> Result<(), NoMemory>
    ensures { OnOk result (found.new ≡ found.old ++ result_type written.now) }
{
    match written {
        Some(ty) => push_mentions(ty, found),
        None => Ok(()),
    }
}

#[cycle(expressions)]
fn expression(e: &Expr, found: &mut Items<Mention>) -> Result<(), NoMemory>
    ensures { OnOk result (found.new ≡ found.old ++ in_expr e.now) }
{
    expression_kind(&e.kind, found)
}

#[cycle(expressions)]
fn expression_kind(kind: &ExprKind, found: &mut Items<Mention>) -> Result<(), NoMemory>
    ensures { OnOk result (found.new ≡ found.old ++ in_kind kind.now) }
{
    match kind {
        ExprKind::Int(_) => Ok(()),
        ExprKind::Char(_) => Ok(()),
        ExprKind::Text(_) => Ok(()),
        ExprKind::Name(_) => Ok(()),
        ExprKind::Path(_, _) => Ok(()),
        ExprKind::Con { name: _, arg: None } => Ok(()),
        ExprKind::Con {
            name: _,
            arg: Some(inner),
        } => expression(inner.get(), found),
        ExprKind::Cons(one, other) => {
            expression(one.get(), found)?;
            expression(other.get(), found)
        }
        ExprKind::Tuple(parts) => expressions(parts.as_slice(), found),
        ExprKind::List(parts) => expressions(parts.as_slice(), found),
        ExprKind::Fields(list) => fields(list.as_slice(), found),
        ExprKind::Field(inner, _) => expression(inner.get(), found),
        ExprKind::Index(one, other) => {
            expression(one.get(), found)?;
            expression(other.get(), found)
        }
        ExprKind::Apply(function, args) => {
            expression(function.get(), found)?;
            expressions(args.as_slice(), found)
        }
        ExprKind::Binary(_, one, other) => {
            expression(one.get(), found)?;
            expression(other.get(), found)
        }
        ExprKind::Minus(inner) => expression(inner.get(), found),
        ExprKind::If(condition, branch, other) => {
            expression(condition.get(), found)?;
            expression(branch.get(), found)?;
            operand(other, found)
        }
        ExprKind::Let {
            recursive: _,
            binds,
            body,
        } => {
            bindings(binds.as_slice(), found)?;
            expression(body.get(), found)
        }
        ExprKind::Seq(parts) => expressions(parts.as_slice(), found),
        ExprKind::Match(scrutinee, list) => {
            expression(scrutinee.get(), found)?;
            arms(list.as_slice(), found)
        }
        ExprKind::Fun(list, body) => {
            params(list.as_slice(), found)?;
            expression(body.get(), found)
        }
        ExprKind::Function(list) => arms(list.as_slice(), found),
        ExprKind::Paren(inner) => expression(inner.get(), found),
        ExprKind::Typed(inner, ty) => {
            expression(inner.get(), found)?;
            push_mentions(ty, found)
        }
        ExprKind::Worded(_, inner) => expression(inner.get(), found),
        ExprKind::Exclave(inner) => expression(inner.get(), found),
        ExprKind::Borrow {
            name: _,
            of: _,
            body,
        } => expression(body.get(), found),
        ExprKind::Overwrite { name: _, with_con } => expression(with_con.get(), found),
    }
}

#[cycle(expressions)]
fn operand(other: &Option<Boxed<Expr>>, found: &mut Items<Mention>) -> Result<(), NoMemory>
    ensures { OnOk result (found.new ≡ found.old ++ perhaps (option_map in_expr other.now)) }
{
    match other {
        Some(inner) => expression(inner.get(), found),
        None => Ok(()),
    }
}

#[cycle(expressions)]
fn expressions(list: &[Expr], found: &mut Items<Mention>) -> Result<(), NoMemory>
    ensures { OnOk result (found.new ≡ found.old ++ all (map in_expr list.now)) }
{
    for one in list {
        expression(one, found)?;
    }
    Ok(())
}

#[cycle(expressions)]
fn field(field: &FieldExpr, found: &mut Items<Mention>) -> Result<(), NoMemory>
    ensures { OnOk result (found.new ≡ found.old ++ in_field field.now) }
{
    expression(&field.expr, found)
}

#[cycle(expressions)]
fn fields(list: &[FieldExpr], found: &mut Items<Mention>) -> Result<(), NoMemory>
    ensures { OnOk result (found.new ≡ found.old ++ all (map in_field list.now)) }
{
    for one in list {
        field(one, found)?;
    }
    Ok(())
}

#[cycle(expressions)]
fn guard(guard: &Option<Expr>, found: &mut Items<Mention>) -> Result<(), NoMemory>
    ensures { OnOk result (found.new ≡ found.old ++ perhaps (option_map in_expr guard.now)) }
{
    match guard {
        Some(condition) => expression(condition, found),
        None => Ok(()),
    }
}

#[cycle(expressions)]
fn arm(arm: &Arm, found: &mut Items<Mention>) -> Result<(), NoMemory>
    ensures { OnOk result (found.new ≡ found.old ++ in_arm arm.now) }
{
    pattern(&arm.pat, found)?;
    guard(&arm.guard, found)?;
    expression(&arm.body, found)?;
    Ok(())
}

#[cycle(expressions)]
fn arms(list: &[Arm], found: &mut Items<Mention>) -> Result<(), NoMemory>
    ensures { OnOk result (found.new ≡ found.old ++ all (map in_arm list.now)) }
{
    for one in list {
        arm(one, found)?;
    }
    Ok(())
}

#[cycle(expressions)]
fn binding(bind: &Bind, found: &mut Items<Mention>) -> Result<(), NoMemory>
    ensures { OnOk result (found.new ≡ found.old ++ in_bind bind.now) }
{
    pattern(&bind.pat, found)?;
    params(bind.params.as_slice(), found)?;
    result_type(&bind.result, found)?;
    expression(&bind.body, found)?;
    Ok(())
}

#[cycle(expressions)]
fn bindings(list: &[Bind], found: &mut Items<Mention>) -> Result<(), NoMemory>
    ensures { OnOk result (found.new ≡ found.old ++ all (map in_bind list.now)) }
{
    for one in list {
        binding(one, found)?;
    }
    Ok(())
}

/// Adds the names and variables of the types that are written in an item.
fn item_annotations(kind: &ItemKind, found: &mut Items<Mention>) -> Result<(), NoMemory>
    ensures { OnOk result (found.new ≡ found.old ++ kind_annotations kind.now) }
{
    match kind {
        ItemKind::Types(_) => Ok(()),
        ItemKind::Let {
            recursive: _,
            binds,
        } => bindings(binds.as_slice(), found),
    }
}

fn push_items(items: &[Item], found: &mut Items<Mention>) -> Result<(), NoMemory>
    ensures { OnOk result (found.new ≡ found.old ++ annotations items.now) }
{
    for item in items {
        item_annotations(&item.kind, found)?;
    }
    Ok(())
}

/// The names and variables of the types that are written in patterns and expressions, in the order
/// of the source.
pub fn annotations(alloc: Global, items: &[Item]) -> Result<Items<Mention>, NoMemory>
    ensures { IfOk result (λ list. list ≡ annotations items.now) }
{
    let mut list = Items::new(alloc);
    push_items(items, &mut list)?;
    Ok(list)
}
