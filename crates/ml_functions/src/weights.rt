ghost use Rattle.std.specs.Prelude.{◌≡◌, ◌+◌, ◌<◌, ◌^◌, sum, map, IfOk};
ghost use Rattle.ml_meaning.specs.Weights.{patterns_of, patterns_of_params, expressions_of, expressions_of_arm, expressions_of_bind, weight};
ghost use Rattle.ml_functions.specs.Parts.{counted, patterns_of_kind, patterns_of_field, patterns_of_param, expressions_of_kind, expressions_of_field};

use ml_tree::{Arm, Bind, Expr, ExprKind, FieldExpr, FieldPat, Param, Pat, PatKind};
use oxml_base::NoMemory;

/// The words of the call stack for so many expressions and patterns. `NoMemory` where they are more
/// than 2^61, which no memory holds.
fn weight(parts: u64) -> Result<u64, NoMemory>
    ensures value { IfOk result (λ words. words ≡ weight parts) }
    ensures bound { IfOk result (λ words. parts < 2 ^ 61) }
{
    if parts >= 1 << 61 {
        return Err(NoMemory);
    }
    Ok(parts * 4 + 64)
}

/// The patterns in a pattern.
#[cycle(patterns)]
fn of_pattern(pat: &Pat) -> u64
    ensures { result ≡ counted (patterns_of pat.now) }
{
    of_pattern_kind(&pat.kind).saturating_add(1)
}

#[cycle(patterns)]
fn of_pattern_kind(kind: &PatKind) -> u64
    ensures { result ≡ counted (patterns_of_kind kind.now) }
{
    match kind {
        PatKind::Con { name: _, arg } => match arg {
            Some(inner) => of_pattern(inner.get()),
            None => 0,
        },
        PatKind::Cons(one, other) | PatKind::Or(one, other) => of_pattern(one.get()).saturating_add(
            of_pattern(other.get()),
        ),
        PatKind::Tuple(parts) | PatKind::List(parts) => of_patterns(parts.as_slice()),
        PatKind::Fields { list, rest: _ } => of_field_patterns(list.as_slice()),
        PatKind::Named(inner, _) | PatKind::Typed(inner, _) | PatKind::Paren(inner) => of_pattern(
            inner.get(),
        ),
        _ => 0,
    }
}

#[cycle(patterns)]
fn of_patterns(list: &[Pat]) -> u64
    ensures { result ≡ counted (sum (map patterns_of list.now)) }
{
    let mut total = 0u64;
    for one in list {
        total = total.saturating_add(of_pattern(one));
    }
    total
}

#[cycle(patterns)]
fn of_field_patterns(list: &[FieldPat]) -> u64
    ensures { result ≡ counted (sum (map patterns_of_field list.now)) }
{
    let mut total = 0u64;
    for one in list {
        total = total.saturating_add(of_field_pattern(one));
    }
    total
}

#[cycle(patterns)]
fn of_field_pattern(field: &FieldPat) -> u64
    ensures { result ≡ counted (patterns_of_field field.now) }
{
    of_pattern(&field.pat)
}

/// The patterns in parameters.
fn of_params(list: &[Param]) -> u64
    ensures { result ≡ counted (sum (map patterns_of_param list.now)) }
{
    let mut total = 0u64;
    for one in list {
        total = total.saturating_add(of_pattern(&one.pat));
    }
    total
}

/// The expressions and patterns in an expression, an inner function counting as one.
#[cycle(parts)]
fn of_expr(e: &Expr) -> u64
    ensures { result ≡ counted (expressions_of e.now) }
{
    of_kind(&e.kind).saturating_add(1)
}

#[cycle(parts)]
fn of_kind(kind: &ExprKind) -> u64
    ensures { result ≡ counted (expressions_of_kind kind.now) }
{
    match kind {
        ExprKind::Con { name: _, arg } => match arg {
            Some(inner) => of_expr(inner.get()),
            None => 0,
        },
        ExprKind::Cons(one, other)
        | ExprKind::Index(one, other)
        | ExprKind::Binary(_, one, other) => of_expr(one.get()).saturating_add(of_expr(
            other.get(),
        )),
        ExprKind::Tuple(parts) | ExprKind::List(parts) | ExprKind::Seq(parts) => of_exprs(
            parts.as_slice(),
        ),
        ExprKind::Fields(list) => of_fields(list.as_slice()),
        ExprKind::Apply(function, args) => of_expr(function.get()).saturating_add(of_exprs(
            args.as_slice(),
        )),
        ExprKind::If(condition, branch, other) => {
            let both = of_expr(condition.get()).saturating_add(of_expr(branch.get()));
            match other {
                Some(other) => both.saturating_add(of_expr(other.get())),
                None => both,
            }
        }
        ExprKind::Let {
            recursive: _,
            binds,
            body,
        } => of_binds(binds.as_slice()).saturating_add(of_expr(body.get())),
        ExprKind::Match(scrutinee, arms) => of_expr(scrutinee.get()).saturating_add(of_arms(
            arms.as_slice(),
        )),
        ExprKind::Field(inner, _)
        | ExprKind::Minus(inner)
        | ExprKind::Paren(inner)
        | ExprKind::Typed(inner, _)
        | ExprKind::Worded(_, inner)
        | ExprKind::Exclave(inner)
        | ExprKind::Borrow {
            name: _,
            of: _,
            body: inner,
        }
        | ExprKind::Overwrite {
            name: _,
            with_con: inner,
        } => of_expr(inner.get()),
        _ => 0,
    }
}

#[cycle(parts)]
fn of_exprs(list: &[Expr]) -> u64
    ensures { result ≡ counted (sum (map expressions_of list.now)) }
{
    let mut total = 0u64;
    for one in list {
        total = total.saturating_add(of_expr(one));
    }
    total
}

#[cycle(parts)]
fn of_fields(list: &[FieldExpr]) -> u64
    ensures { result ≡ counted (sum (map expressions_of_field list.now)) }
{
    let mut total = 0u64;
    for one in list {
        total = total.saturating_add(of_field(one));
    }
    total
}

#[cycle(parts)]
fn of_field(field: &FieldExpr) -> u64
    ensures { result ≡ counted (expressions_of_field field.now) }
{
    of_expr(&field.expr)
}

/// The expressions and patterns in arms.
#[cycle(parts)]
fn of_arms(list: &[Arm]) -> u64
    ensures { result ≡ counted (sum (map expressions_of_arm list.now)) }
{
    let mut total = 0u64;
    for one in list {
        total = total.saturating_add(of_arm(one));
    }
    total
}

#[cycle(parts)]
fn of_arm(arm: &Arm) -> u64
    ensures { result ≡ counted (expressions_of_arm arm.now) }
{
    let guard = match &arm.guard {
        Some(guard) => of_expr(guard),
        None => 0,
    };
    of_pattern(&arm.pat)
        .saturating_add(guard)
        .saturating_add(of_expr(&arm.body))
}

/// The expressions and patterns in bindings; one with parameters is an inner function.
#[cycle(parts)]
fn of_binds(list: &[Bind]) -> u64
    ensures { result ≡ counted (sum (map expressions_of_bind list.now)) }
{
    let mut total = 0u64;
    for one in list {
        total = total.saturating_add(of_bind(one));
    }
    total
}

#[cycle(parts)]
fn of_bind(bind: &Bind) -> u64
    ensures { result ≡ counted (expressions_of_bind bind.now) }
{
    if bind.params.len() == 0 {
        return of_pattern(&bind.pat).saturating_add(of_expr(&bind.body));
    }
    1
}

/// What a call of a function behind parameters weighs, in words.
pub fn weighed_params(params: &[Param], body: &Expr) -> Result<u64, NoMemory>
    ensures { IfOk result (λ words. words ≡ weight (patterns_of_params params.now + expressions_of body.now)) }
{
    weight(of_params(params).saturating_add(of_expr(body)))
}

/// What a call of a function of arms weighs, in words.
pub fn weighed_arms(arms: &[Arm]) -> Result<u64, NoMemory>
    ensures { IfOk result (λ words. words ≡ weight (sum (map expressions_of_arm arms.now))) }
{
    weight(of_arms(arms))
}

/// What an item of these bindings weighs, in words.
pub fn weighed_binds(binds: &[Bind]) -> Result<u64, NoMemory>
    ensures { IfOk result (λ words. words ≡ weight (sum (map expressions_of_bind binds.now))) }
{
    weight(of_binds(binds))
}
