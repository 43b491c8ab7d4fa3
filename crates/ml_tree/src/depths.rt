ghost use Rattle.std.specs.Prelude.{◌≡◌, ◌+◌, ◌<◌, ◌^◌, map};
ghost use Rattle.ml_tree.specs.Depth.{greatest, pattern_depth, pattern_kind_depth, field_pattern_depth, param_depth, expr_depth, kind_depth, arm_depth, bind_depth, field_depth};

use crate::expr::{Arm, Bind, Expr, ExprKind, FieldExpr};
use crate::pattern::{FieldPat, Param, Pat, PatKind};

/// The depth of a pattern.
#[cycle(patterns_depth)]
fn of_pattern(pat: &Pat) -> u32
    requires { pattern_depth pat.now < 2 ^ 32 }
    ensures { result ≡ pattern_depth pat.now }
{
    of_pattern_kind(&pat.kind) + 1
}

#[cycle(patterns_depth)]
fn of_field_pattern(field: &FieldPat) -> u32
    requires { field_pattern_depth field.now < 2 ^ 32 }
    ensures { result ≡ field_pattern_depth field.now }
{
    of_pattern(&field.pat)
}

#[cycle(patterns_depth)]
fn of_pattern_kind(kind: &PatKind) -> u32
    requires { pattern_kind_depth kind.now < 2 ^ 32 }
    ensures { result ≡ pattern_kind_depth kind.now }
{
    match kind {
        PatKind::Con { name: _, arg } => match arg {
            Some(inner) => of_pattern(inner.get()),
            None => 0,
        },
        PatKind::Cons(one, other) | PatKind::Or(one, other) => of_pattern(one.get()).max(of_pattern(
            other.get(),
        )),
        PatKind::Tuple(parts) | PatKind::List(parts) => of_patterns(parts.as_slice()),
        PatKind::Fields { list, rest: _ } => of_field_patterns(list.as_slice()),
        PatKind::Named(inner, _) | PatKind::Typed(inner, _) | PatKind::Paren(inner) => of_pattern(
            inner.get(),
        ),
        _ => 0,
    }
}

#[cycle(patterns_depth)]
fn of_patterns(list: &[Pat]) -> u32
    requires { greatest (map pattern_depth list.now) < 2 ^ 32 }
    ensures { result ≡ greatest (map pattern_depth list.now) }
{
    let mut most = 0;
    for one in list {
        most = most.max(of_pattern(one));
    }
    most
}

#[cycle(patterns_depth)]
fn of_field_patterns(list: &[FieldPat]) -> u32
    requires { greatest (map field_pattern_depth list.now) < 2 ^ 32 }
    ensures { result ≡ greatest (map field_pattern_depth list.now) }
{
    let mut most = 0;
    for one in list {
        most = most.max(of_field_pattern(one));
    }
    most
}

fn of_params(list: &[Param]) -> u32
    requires { greatest (map param_depth list.now) < 2 ^ 32 }
    ensures { result ≡ greatest (map param_depth list.now) }
{
    let mut most = 0;
    for one in list {
        most = most.max(of_pattern(&one.pat));
    }
    most
}

/// How deep an expression is: the greatest number of expressions and patterns on a path down, itself
/// included. `Paren`s count; fields of records, bindings, arms and parameters do not. Takes no memory.
#[cycle(expressions_depth)]
pub fn depth(e: &Expr) -> u32
    requires { expr_depth e.now < 2 ^ 32 }
    ensures { result ≡ expr_depth e.now }
{
    of_kind(&e.kind) + 1
}

#[cycle(expressions_depth)]
fn of_field(field: &FieldExpr) -> u32
    requires { field_depth field.now < 2 ^ 32 }
    ensures { result ≡ field_depth field.now }
{
    depth(&field.expr)
}

#[cycle(expressions_depth)]
fn of_arm(arm: &Arm) -> u32
    requires { arm_depth arm.now < 2 ^ 32 }
    ensures { result ≡ arm_depth arm.now }
{
    let guard = match &arm.guard {
        Some(guard) => depth(guard),
        None => 0,
    };
    of_pattern(&arm.pat).max(guard).max(depth(&arm.body))
}

#[cycle(expressions_depth)]
fn of_bind(bind: &Bind) -> u32
    requires { bind_depth bind.now < 2 ^ 32 }
    ensures { result ≡ bind_depth bind.now }
{
    of_pattern(&bind.pat)
        .max(of_params(bind.params.as_slice()))
        .max(depth(&bind.body))
}

#[cycle(expressions_depth)]
#[tactic(auto, using(crate::proofs::Forms::apply_depth, crate::proofs::Forms::let_depth, crate::proofs::Forms::match_depth))]
fn of_kind(kind: &ExprKind) -> u32
    requires { kind_depth kind.now < 2 ^ 32 }
    ensures { result ≡ kind_depth kind.now }
{
    match kind {
        ExprKind::Con { name: _, arg } => match arg {
            Some(inner) => depth(inner.get()),
            None => 0,
        },
        ExprKind::Cons(one, other)
        | ExprKind::Index(one, other)
        | ExprKind::Binary(_, one, other) => depth(one.get()).max(depth(other.get())),
        ExprKind::Tuple(parts) | ExprKind::List(parts) | ExprKind::Seq(parts) => of_expressions(
            parts.as_slice(),
        ),
        ExprKind::Fields(list) => of_fields(list.as_slice()),
        ExprKind::Apply(function, args) => depth(function.get()).max(of_expressions(
            args.as_slice(),
        )),
        ExprKind::If(condition, branch, other) => {
            let both = depth(condition.get()).max(depth(branch.get()));
            match other {
                Some(other) => both.max(depth(other.get())),
                None => both,
            }
        }
        ExprKind::Let {
            recursive: _,
            binds,
            body,
        } => of_binds(binds.as_slice()).max(depth(body.get())),
        ExprKind::Match(scrutinee, arms) => depth(scrutinee.get()).max(of_arms(arms.as_slice())),
        ExprKind::Fun(params, body) => of_params(params.as_slice()).max(depth(body.get())),
        ExprKind::Function(arms) => of_arms(arms.as_slice()),
        ExprKind::Field(inner, _)
        | ExprKind::Minus(inner)
        | ExprKind::Paren(inner)
        | ExprKind::Typed(inner, _)
        | ExprKind::Worded(_, inner)
        | ExprKind::Exclave(inner)
        | ExprKind::Borrow {
            name: _,
            of: _,
            body: inner,
        }
        | ExprKind::Overwrite {
            name: _,
            with_con: inner,
        } => depth(inner.get()),
        _ => 0,
    }
}

#[cycle(expressions_depth)]
fn of_expressions(list: &[Expr]) -> u32
    requires { greatest (map expr_depth list.now) < 2 ^ 32 }
    ensures { result ≡ greatest (map expr_depth list.now) }
{
    let mut most = 0;
    for one in list {
        most = most.max(depth(one));
    }
    most
}

#[cycle(expressions_depth)]
fn of_fields(list: &[FieldExpr]) -> u32
    requires { greatest (map field_depth list.now) < 2 ^ 32 }
    ensures { result ≡ greatest (map field_depth list.now) }
{
    let mut most = 0;
    for one in list {
        most = most.max(of_field(one));
    }
    most
}

#[cycle(expressions_depth)]
fn of_arms(list: &[Arm]) -> u32
    requires { greatest (map arm_depth list.now) < 2 ^ 32 }
    ensures { result ≡ greatest (map arm_depth list.now) }
{
    let mut most = 0;
    for one in list {
        most = most.max(of_arm(one));
    }
    most
}

#[cycle(expressions_depth)]
fn of_binds(list: &[Bind]) -> u32
    requires { greatest (map bind_depth list.now) < 2 ^ 32 }
    ensures { result ≡ greatest (map bind_depth list.now) }
{
    let mut most = 0;
    for one in list {
        most = most.max(of_bind(one));
    }
    most
}
