//! What expressions use, in the scope in which they stand.
ghost use Rattle.std.specs.Prelude.{◌≡◌, ◌-◌, [], false, map, drop, length, OnOk};
ghost use Rattle.std.specs.Option.{option_map};
ghost use Rattle.ml_scope.specs.Journal.{each, perhaps};
ghost use Rattle.ml_scope.specs.Binding.{bound};
ghost use Rattle.ml_scope.specs.Expressions.{expr_seen, kind_seen, arm_look, bind_seen, field_seen, function_look, plain_look, bind_names, group_look};

use crate::binder::{Binder, binders};
use crate::binding::{bind_all, report_twice};
use crate::found::Found;
use crate::functions::{
    bind_head, bind_names, function_head, given, param_names, path, plain_head, record_expression,
};
use crate::journal::{both, offence_where};
use crate::known::Known;
use crate::patterns::pattern;
use crate::scope::Scope;
use crate::types::type_expr;
use crate::uses::{constructor, field, value};
use ml_tree::{Arm, Bind, Expr, ExprKind, FieldExpr, Param, TyExpr};
use oxml_base::{Items, NoMemory, Rule, Span};
use sqlite_items::Boxed;

/// What an expression uses.
#[cycle(expressions)]
pub fn expression(
    known: &Known,
    e: &Expr,
    scope: &mut Scope,
    journal: &mut Items<Found>,
) -> Result<(), NoMemory>
    ensures scope { OnOk result (scope.new ≡ scope.old) }
    ensures journal { OnOk result (journal.new ≡ (expr_seen known.now e.now).look scope.old journal.old) }
{
    expression_kind(known, e.id, e.span, &e.kind, scope, journal)
}

#[cycle(expressions)]
fn expression_kind(
    known: &Known,
    id: u32,
    span: Span,
    kind: &ExprKind,
    scope: &mut Scope,
    journal: &mut Items<Found>,
) -> Result<(), NoMemory>
    ensures scope { OnOk result (scope.new ≡ scope.old) }
    ensures journal { OnOk result (journal.new ≡ (kind_seen known.now kind.now).look id span scope.old journal.old) }
{
    match kind {
        ExprKind::Name(name) => value(known, scope, id, *name, journal),
        ExprKind::Path(module, name) => path(known, id, span, *module, *name, journal),
        ExprKind::Con { name, arg } => {
            constructor(known, id, span, *name, given(arg), journal)?;
            operand(known, arg, scope, journal)
        }
        ExprKind::Cons(one, other)
        | ExprKind::Index(one, other)
        | ExprKind::Binary(_, one, other) => {
            expression(known, one.get(), scope, journal)?;
            expression(known, other.get(), scope, journal)
        }
        ExprKind::Tuple(parts) | ExprKind::List(parts) | ExprKind::Seq(parts) => expressions(
            known,
            parts.as_slice(),
            scope,
            journal,
        ),
        ExprKind::Fields(list) => {
            record_expression(known, id, span, list.as_slice(), journal)?;
            fields(known, list.as_slice(), scope, journal)
        }
        ExprKind::Field(inner, name) => {
            field(known, id, *name, journal)?;
            expression(known, inner.get(), scope, journal)
        }
        ExprKind::Apply(function, args) => {
            expression(known, function.get(), scope, journal)?;
            expressions(known, args.as_slice(), scope, journal)
        }
        ExprKind::If(condition, branch, other) => {
            expression(known, condition.get(), scope, journal)?;
            expression(known, branch.get(), scope, journal)?;
            operand(known, other, scope, journal)
        }
        ExprKind::Let {
            recursive,
            binds,
            body,
        } => {
            let left_out = both(*recursive, binds.len() > 1);
            offence_where(left_out, Rule::LeftOut, span, journal)?;
            let outer = scope.len();
            group(known, false, *recursive, binds.as_slice(), scope, journal)?;
            let_body(known, outer, body.get(), scope, journal)
        }
        ExprKind::Match(scrutinee, list) => {
            expression(known, scrutinee.get(), scope, journal)?;
            arms(known, list.as_slice(), scope, journal)
        }
        ExprKind::Fun(params, body) => function(
            known,
            id,
            params.as_slice(),
            &None,
            body.get(),
            scope,
            journal,
        ),
        ExprKind::Function(list) => {
            journal.push(Found::Opens(id))?;
            arms(known, list.as_slice(), scope, journal)?;
            Ok(journal.push(Found::Closes)?)
        }
        ExprKind::Typed(inner, ty) => {
            expression(known, inner.get(), scope, journal)?;
            type_expr(known, ty, journal)
        }
        ExprKind::Minus(inner)
        | ExprKind::Paren(inner)
        | ExprKind::Worded(_, inner)
        | ExprKind::Exclave(inner) => expression(known, inner.get(), scope, journal),
        ExprKind::Borrow { name, of, body } => {
            value(known, scope, id, *of, journal)?;
            let borrowed = Binder {
                name: *name,
                node: id,
            };
            inside(known, &[borrowed], body.get(), scope, journal)
        }
        ExprKind::Overwrite { name, with_con } => {
            value(known, scope, id, *name, journal)?;
            expression(known, with_con.get(), scope, journal)
        }
        _ => Ok(()),
    }
}

/// An operand, or a branch, that may be left out.
#[cycle(expressions)]
fn operand(
    known: &Known,
    arg: &Option<Boxed<Expr>>,
    scope: &mut Scope,
    journal: &mut Items<Found>,
) -> Result<(), NoMemory>
    ensures scope { OnOk result (scope.new ≡ scope.old) }
    ensures journal { OnOk result (journal.new ≡ perhaps (option_map (λ x. x.look scope.old) (option_map (expr_seen known.now) arg.now)) journal.old) }
{
    match arg {
        None => Ok(()),
        Some(inner) => expression(known, inner.get(), scope, journal),
    }
}

/// An expression in which these names are in scope too.
#[cycle(expressions)]
#[tactic(auto, using(crate::proofs::Leaving::bound_left))]
fn inside(
    known: &Known,
    names: &[Binder],
    e: &Expr,
    scope: &mut Scope,
    journal: &mut Items<Found>,
) -> Result<(), NoMemory>
    ensures scope { OnOk result (scope.new ≡ scope.old) }
    ensures journal { OnOk result (journal.new ≡ (expr_seen known.now e.now).look (bound known.now false names.now scope.old) journal.old) }
{
    let count = scope.len();
    bind_all(known, false, names, scope)?;
    expression(known, e, scope, journal)?;
    scope.leave(count);
    Ok(())
}

/// The body of a `let` that is no item; behind it the names are out of scope again, so that `outer`
/// binders are left.
#[cycle(expressions)]
fn let_body(
    known: &Known,
    outer: usize,
    body: &Expr,
    scope: &mut Scope,
    journal: &mut Items<Found>,
) -> Result<(), NoMemory>
    ensures scope { OnOk result (scope.new ≡ drop (length scope.old - outer) scope.old) }
    ensures journal { OnOk result (journal.new ≡ (expr_seen known.now body.now).look scope.old journal.old) }
{
    expression(known, body, scope, journal)?;
    scope.leave(outer);
    Ok(())
}

#[cycle(expressions)]
fn expressions(
    known: &Known,
    list: &[Expr],
    scope: &mut Scope,
    journal: &mut Items<Found>,
) -> Result<(), NoMemory>
    ensures scope { OnOk result (scope.new ≡ scope.old) }
    ensures journal { OnOk result (journal.new ≡ each (map (λ x. x.look scope.old) (map (expr_seen known.now) list.now)) journal.old) }
{
    for one in list {
        expression(known, one, scope, journal)?;
    }
    Ok(())
}

#[cycle(expressions)]
fn fields(
    known: &Known,
    list: &[FieldExpr],
    scope: &mut Scope,
    journal: &mut Items<Found>,
) -> Result<(), NoMemory>
    ensures scope { OnOk result (scope.new ≡ scope.old) }
    ensures journal { OnOk result (journal.new ≡ each (map (λ f. f.look scope.old) (map (field_seen known.now) list.now)) journal.old) }
{
    for one in list {
        field_expression(known, one, scope, journal)?;
    }
    Ok(())
}

#[cycle(expressions)]
fn field_expression(
    known: &Known,
    one: &FieldExpr,
    scope: &mut Scope,
    journal: &mut Items<Found>,
) -> Result<(), NoMemory>
    ensures scope { OnOk result (scope.new ≡ scope.old) }
    ensures journal { OnOk result (journal.new ≡ (field_seen known.now one.now).look scope.old journal.old) }
{
    field(known, one.id, one.name, journal)?;
    expression(known, &one.expr, scope, journal)
}

#[cycle(expressions)]
fn arms(
    known: &Known,
    list: &[Arm],
    scope: &mut Scope,
    journal: &mut Items<Found>,
) -> Result<(), NoMemory>
    ensures scope { OnOk result (scope.new ≡ scope.old) }
    ensures journal { OnOk result (journal.new ≡ each (map (λ one. one scope.old) (map (arm_look known.now) list.now)) journal.old) }
{
    for one in list {
        arm(known, one, scope, journal)?;
    }
    Ok(())
}

/// An arm: the names of its pattern are in scope in its guard and its body.
#[cycle(expressions)]
#[tactic(auto, using(crate::proofs::Leaving::bound_left))]
fn arm(
    known: &Known,
    one: &Arm,
    scope: &mut Scope,
    journal: &mut Items<Found>,
) -> Result<(), NoMemory>
    ensures scope { OnOk result (scope.new ≡ scope.old) }
    ensures journal { OnOk result (journal.new ≡ arm_look known.now one.now scope.old journal.old) }
{
    pattern(known, &one.pat, journal)?;
    let mut names = Items::new(known.alloc());
    binders(&one.pat, &mut names)?;
    report_twice(known, names.as_slice(), journal)?;
    let count = scope.len();
    bind_all(known, false, names.as_slice(), scope)?;
    guard(known, &one.guard, scope, journal)?;
    expression(known, &one.body, scope, journal)?;
    scope.leave(count);
    Ok(())
}

#[cycle(expressions)]
fn guard(
    known: &Known,
    guard: &Option<Expr>,
    scope: &mut Scope,
    journal: &mut Items<Found>,
) -> Result<(), NoMemory>
    ensures scope { OnOk result (scope.new ≡ scope.old) }
    ensures journal { OnOk result (journal.new ≡ perhaps (option_map (λ g. g.look scope.old) (option_map (expr_seen known.now) guard.now)) journal.old) }
{
    match guard {
        None => Ok(()),
        Some(condition) => expression(known, condition, scope, journal),
    }
}

/// A function: its parameters are in scope in its body.
#[cycle(expressions)]
fn function(
    known: &Known,
    id: u32,
    params: &[Param],
    result_type: &Option<TyExpr>,
    body: &Expr,
    scope: &mut Scope,
    journal: &mut Items<Found>,
) -> Result<(), NoMemory>
    ensures scope { OnOk result (scope.new ≡ scope.old) }
    ensures journal { OnOk result (journal.new ≡ function_look known.now id params.now result_type.now (expr_seen known.now body.now).look scope.old journal.old) }
{
    let names = param_names(known, params)?;
    function_head(known, id, params, names.as_slice(), result_type, journal)?;
    inside(known, names.as_slice(), body, scope, journal)?;
    Ok(journal.push(Found::Closes)?)
}

/// The bindings of one `let`, whose names then are in scope. Where it is recursive, they are in
/// scope in the bound values too.
#[cycle(expressions)]
pub fn group(
    known: &Known,
    top: bool,
    recursive: bool,
    binds: &[Bind],
    scope: &mut Scope,
    journal: &mut Items<Found>,
) -> Result<(), NoMemory>
    ensures scope { OnOk result (scope.new ≡ bound known.now top (bind_names known.now (map (bind_seen known.now) binds.now)) scope.old) }
    ensures journal { OnOk result (journal.new ≡ group_look known.now top recursive (map (bind_seen known.now) binds.now) scope.old journal.old) }
{
    let names = bind_names(known, binds)?;
    report_twice(known, names.as_slice(), journal)?;
    if recursive {
        bind_all(known, top, names.as_slice(), scope)?;
        values(known, true, binds, scope, journal)
    } else {
        values(known, false, binds, scope, journal)?;
        bind_all(known, top, names.as_slice(), scope)
    }
}

#[cycle(expressions)]
fn values(
    known: &Known,
    recursive: bool,
    binds: &[Bind],
    scope: &mut Scope,
    journal: &mut Items<Found>,
) -> Result<(), NoMemory>
    ensures scope { OnOk result (scope.new ≡ scope.old) }
    ensures journal { OnOk result (journal.new ≡ each (map (λ b. b.look recursive scope.old) (map (bind_seen known.now) binds.now)) journal.old) }
{
    for one in binds {
        bind(known, recursive, one, scope, journal)?;
    }
    Ok(())
}

/// One binding: what its pattern uses, and then the value.
#[cycle(expressions)]
fn bind(
    known: &Known,
    recursive: bool,
    one: &Bind,
    scope: &mut Scope,
    journal: &mut Items<Found>,
) -> Result<(), NoMemory>
    ensures scope { OnOk result (scope.new ≡ scope.old) }
    ensures journal { OnOk result (journal.new ≡ (bind_seen known.now one.now).look recursive scope.old journal.old) }
{
    bind_head(known, recursive, one, journal)?;
    if one.params.len() > 0 {
        function(
            known,
            one.pat.id,
            one.params.as_slice(),
            &one.result,
            &one.body,
            scope,
            journal,
        )
    } else {
        plain_value(known, recursive, one, scope, journal)
    }
}

/// A value that is no function with parameters.
#[cycle(expressions)]
fn plain_value(
    known: &Known,
    recursive: bool,
    one: &Bind,
    scope: &mut Scope,
    journal: &mut Items<Found>,
) -> Result<(), NoMemory>
    ensures scope { OnOk result (scope.new ≡ scope.old) }
    ensures journal { OnOk result (journal.new ≡ plain_look known.now recursive one.now.pat one.now.result (expr_seen known.now one.now.body) scope.old journal.old) }
{
    plain_head(known, recursive, one, journal)?;
    expression(known, &one.body, scope, journal)
}
