ghost use Rattle.std.specs.Prelude.{◌≡◌, ◌+◌, ◌<◌, ◌^◌, sum, map};
ghost use Rattle.ml_tree.specs.Nodes.{pattern_nodes, pattern_kind_nodes, field_pattern_nodes, param_nodes, expr_nodes, kind_nodes, arm_nodes, bind_nodes, field_nodes};

use crate::expr::{Arm, Bind, Expr, ExprKind, FieldExpr};
use crate::pattern::{FieldPat, Param, Pat, PatKind};

/// The nodes of a pattern.
#[cycle(patterns)]
fn of_pattern(pat: &Pat) -> u32
    requires { pattern_nodes pat.now < 2 ^ 32 }
    ensures { result ≡ pattern_nodes pat.now }
{
    of_pattern_kind(&pat.kind) + 1
}

#[cycle(patterns)]
fn of_field_pattern(field: &FieldPat) -> u32
    requires { field_pattern_nodes field.now < 2 ^ 32 }
    ensures { result ≡ field_pattern_nodes field.now }
{
    of_pattern(&field.pat) + 1
}

#[cycle(patterns)]
fn of_pattern_kind(kind: &PatKind) -> u32
    requires { pattern_kind_nodes kind.now < 2 ^ 32 }
    ensures { result ≡ pattern_kind_nodes kind.now }
{
    match kind {
        PatKind::Con { name: _, arg } => match arg {
            Some(inner) => of_pattern(inner.get()),
            None => 0,
        },
        PatKind::Cons(one, other) | PatKind::Or(one, other) => of_pattern(one.get())
            + of_pattern(other.get()),
        PatKind::Tuple(parts) | PatKind::List(parts) => of_patterns(parts.as_slice()),
        PatKind::Fields { list, rest: _ } => of_field_patterns(list.as_slice()),
        PatKind::Named(inner, _) | PatKind::Typed(inner, _) | PatKind::Paren(inner) => of_pattern(
            inner.get(),
        ),
        _ => 0,
    }
}

#[cycle(patterns)]
fn of_patterns(list: &[Pat]) -> u32
    requires { sum (map pattern_nodes list.now) < 2 ^ 32 }
    ensures { result ≡ sum (map pattern_nodes list.now) }
{
    let mut total = 0;
    for one in list {
        total += of_pattern(one);
    }
    total
}

#[cycle(patterns)]
fn of_field_patterns(list: &[FieldPat]) -> u32
    requires { sum (map field_pattern_nodes list.now) < 2 ^ 32 }
    ensures { result ≡ sum (map field_pattern_nodes list.now) }
{
    let mut total = 0;
    for one in list {
        total += of_field_pattern(one);
    }
    total
}

fn of_params(list: &[Param]) -> u32
    requires { sum (map param_nodes list.now) < 2 ^ 32 }
    ensures { result ≡ sum (map param_nodes list.now) }
{
    let mut total = 0;
    for one in list {
        total += of_pattern(&one.pat);
    }
    total
}

/// The nodes of an expression: itself, the patterns and expressions below it, and the fields of
/// records.
#[cycle(nodes)]
pub fn nodes(e: &Expr) -> u32
    requires { expr_nodes e.now < 2 ^ 32 }
    ensures { result ≡ expr_nodes e.now }
{
    of_kind(&e.kind) + 1
}

#[cycle(nodes)]
fn of_field(field: &FieldExpr) -> u32
    requires { field_nodes field.now < 2 ^ 32 }
    ensures { result ≡ field_nodes field.now }
{
    nodes(&field.expr) + 1
}

#[cycle(nodes)]
fn of_arm(arm: &Arm) -> u32
    requires { arm_nodes arm.now < 2 ^ 32 }
    ensures { result ≡ arm_nodes arm.now }
{
    let guard = match &arm.guard {
        Some(guard) => nodes(guard),
        None => 0,
    };
    of_pattern(&arm.pat) + guard + nodes(&arm.body)
}

#[cycle(nodes)]
fn of_bind(bind: &Bind) -> u32
    requires { bind_nodes bind.now < 2 ^ 32 }
    ensures { result ≡ bind_nodes bind.now }
{
    of_pattern(&bind.pat) + of_params(bind.params.as_slice()) + nodes(&bind.body)
}

#[cycle(nodes)]
fn of_kind(kind: &ExprKind) -> u32
    requires { kind_nodes kind.now < 2 ^ 32 }
    ensures { result ≡ kind_nodes kind.now }
{
    match kind {
        ExprKind::Con { name: _, arg } => match arg {
            Some(inner) => nodes(inner.get()),
            None => 0,
        },
        ExprKind::Cons(one, other)
        | ExprKind::Index(one, other)
        | ExprKind::Binary(_, one, other) => { nodes(one.get()) + nodes(other.get()) }
        ExprKind::Tuple(parts) | ExprKind::List(parts) | ExprKind::Seq(parts) => of_expressions(
            parts.as_slice(),
        ),
        ExprKind::Fields(list) => of_fields(list.as_slice()),
        ExprKind::Apply(function, args) => nodes(function.get()) + of_expressions(args.as_slice()),
        ExprKind::If(condition, branch, other) => {
            let both = nodes(condition.get()) + nodes(branch.get());
            match other {
                Some(other) => both + nodes(other.get()),
                None => both,
            }
        }
        ExprKind::Let {
            recursive: _,
            binds,
            body,
        } => of_binds(binds.as_slice()) + nodes(body.get()),
        ExprKind::Match(scrutinee, arms) => nodes(scrutinee.get()) + of_arms(arms.as_slice()),
        ExprKind::Fun(params, body) => of_params(params.as_slice()) + nodes(body.get()),
        ExprKind::Function(arms) => of_arms(arms.as_slice()),
        ExprKind::Field(inner, _)
        | ExprKind::Minus(inner)
        | ExprKind::Paren(inner)
        | ExprKind::Typed(inner, _)
        | ExprKind::Worded(_, inner)
        | ExprKind::Exclave(inner)
        | ExprKind::Borrow {
            name: _,
            of: _,
            body: inner,
        }
        | ExprKind::Overwrite {
            name: _,
            with_con: inner,
        } => nodes(inner.get()),
        _ => 0,
    }
}

#[cycle(nodes)]
fn of_expressions(list: &[Expr]) -> u32
    requires { sum (map expr_nodes list.now) < 2 ^ 32 }
    ensures { result ≡ sum (map expr_nodes list.now) }
{
    let mut total = 0;
    for one in list {
        total += nodes(one);
    }
    total
}

#[cycle(nodes)]
fn of_fields(list: &[FieldExpr]) -> u32
    requires { sum (map field_nodes list.now) < 2 ^ 32 }
    ensures { result ≡ sum (map field_nodes list.now) }
{
    let mut total = 0;
    for one in list {
        total += of_field(one);
    }
    total
}

#[cycle(nodes)]
fn of_arms(list: &[Arm]) -> u32
    requires { sum (map arm_nodes list.now) < 2 ^ 32 }
    ensures { result ≡ sum (map arm_nodes list.now) }
{
    let mut total = 0;
    for one in list {
        total += of_arm(one);
    }
    total
}

#[cycle(nodes)]
fn of_binds(list: &[Bind]) -> u32
    requires { sum (map bind_nodes list.now) < 2 ^ 32 }
    ensures { result ≡ sum (map bind_nodes list.now) }
{
    let mut total = 0;
    for one in list {
        total += of_bind(one);
    }
    total
}
