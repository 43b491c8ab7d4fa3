ghost use Rattle.std.specs.Prelude.{◌≡◌, ◌++◌, [], map, OnOk};
ghost use Rattle.ml_meaning.specs.Captures.{together, local_use, bound_names, bound_by_params, binders, binders_of_arm, uses, uses_of_arm};
ghost use Rattle.ml_words.specs.Named.{targets};
ghost use Rattle.ml_functions.specs.Used.{bound_names_of_kind, bound_names_of_field, binders_of_kind, binders_of_field, binders_of_bind, uses_of_kind, uses_of_field, uses_of_bind};

use ml_tree::{Arm, Bind, Expr, ExprKind, FieldExpr, FieldPat, Param, Pat, PatKind, Ref, Scoped};
use ml_words::target;
use oxml_base::NoMemory;
use std::alloc::Global;

/// The names that are used and that are bound, in the order of the source.
#[derive(Drop)]
pub struct Gathered {
    pub uses: Vec<u32>,
    pub binders: Vec<u32>,
}

impl Gathered {
    /// No names yet.
    pub fn new(alloc: Global) -> Gathered
        ensures uses { result.uses.items ≡ [] }
        ensures binders { result.binders.items ≡ [] }
    {
        Gathered {
            uses: Vec::new(alloc),
            binders: Vec::new(alloc),
        }
    }
}

fn use_at(s: &Scoped, node: u32, found: &mut Gathered) -> Result<(), NoMemory>
    ensures uses { OnOk result (found.new.uses.items ≡ found.old.uses.items ++ local_use (targets s.now node)) }
    ensures binders { OnOk result (found.new.binders.items ≡ found.old.binders.items) }
{
    match target(s, node) {
        Some(Ref::Local(name)) => {
            found.uses.push(name)?;
            Ok(())
        }
        Some(Ref::Top(_)) => Ok(()),
        Some(Ref::Operation(_)) => Ok(()),
        Some(Ref::Con(_, _)) => Ok(()),
        Some(Ref::Field(_, _)) => Ok(()),
        Some(Ref::Decl(_)) => Ok(()),
        None => Ok(()),
    }
}

#[cycle(patterns)]
fn pattern(pat: &Pat, found: &mut Gathered) -> Result<(), NoMemory>
    ensures uses { OnOk result (found.new.uses.items ≡ found.old.uses.items) }
    ensures binders { OnOk result (found.new.binders.items ≡ found.old.binders.items ++ bound_names pat.now) }
{
    pattern_kind(&pat.kind, pat.id, found)
}

#[cycle(patterns)]
fn pattern_kind(kind: &PatKind, node: u32, found: &mut Gathered) -> Result<(), NoMemory>
    ensures uses { OnOk result (found.new.uses.items ≡ found.old.uses.items) }
    ensures binders { OnOk result (found.new.binders.items ≡ found.old.binders.items ++ bound_names_of_kind kind.now node) }
{
    match kind {
        PatKind::Name(_, _) => {
            found.binders.push(node)?;
            Ok(())
        }
        PatKind::Con { name: _, arg } => match arg {
            Some(inner) => pattern(inner.get(), found),
            None => Ok(()),
        },
        PatKind::Cons(one, other) | PatKind::Or(one, other) => {
            pattern(one.get(), found)?;
            pattern(other.get(), found)
        }
        PatKind::Tuple(parts) | PatKind::List(parts) => patterns(parts.as_slice(), found),
        PatKind::Fields { list, rest: _ } => field_patterns(list.as_slice(), found),
        PatKind::Named(inner, _) => {
            found.binders.push(node)?;
            pattern(inner.get(), found)
        }
        PatKind::Typed(inner, _) | PatKind::Paren(inner) => pattern(inner.get(), found),
        _ => Ok(()),
    }
}

#[tactic(auto, using(crate::proofs::Grows::grows_start, crate::proofs::Grows::grows_step, crate::proofs::Grows::grows_end))]
#[cycle(patterns)]
fn patterns(list: &[Pat], found: &mut Gathered) -> Result<(), NoMemory>
    ensures uses { OnOk result (found.new.uses.items ≡ found.old.uses.items) }
    ensures binders { OnOk result (found.new.binders.items ≡ found.old.binders.items ++ together (map bound_names list.now)) }
{
    for one in list {
        pattern(one, found)?;
    }
    Ok(())
}

#[tactic(auto, using(crate::proofs::Grows::grows_start, crate::proofs::Grows::grows_step, crate::proofs::Grows::grows_end))]
#[cycle(patterns)]
fn field_patterns(list: &[FieldPat], found: &mut Gathered) -> Result<(), NoMemory>
    ensures uses { OnOk result (found.new.uses.items ≡ found.old.uses.items) }
    ensures binders { OnOk result (found.new.binders.items ≡ found.old.binders.items ++ together (map bound_names_of_field list.now)) }
{
    for one in list {
        field_pattern(one, found)?;
    }
    Ok(())
}

#[cycle(patterns)]
fn field_pattern(field: &FieldPat, found: &mut Gathered) -> Result<(), NoMemory>
    ensures uses { OnOk result (found.new.uses.items ≡ found.old.uses.items) }
    ensures binders { OnOk result (found.new.binders.items ≡ found.old.binders.items ++ bound_names_of_field field.now) }
{
    pattern(&field.pat, found)
}

/// The names that parameters bind.
#[tactic(auto, using(crate::proofs::Grows::grows_start, crate::proofs::Grows::grows_step, crate::proofs::Grows::params_end))]
pub fn params(list: &[Param], found: &mut Gathered) -> Result<(), NoMemory>
    ensures uses { OnOk result (found.new.uses.items ≡ found.old.uses.items) }
    ensures binders { OnOk result (found.new.binders.items ≡ found.old.binders.items ++ bound_by_params list.now) }
{
    for one in list {
        pattern(&one.pat, found)?;
    }
    Ok(())
}

/// The names in an expression.
#[cycle(gathering)]
pub fn expr(s: &Scoped, e: &Expr, found: &mut Gathered) -> Result<(), NoMemory>
    ensures uses { OnOk result (found.new.uses.items ≡ found.old.uses.items ++ uses (targets s.now) e.now) }
    ensures binders { OnOk result (found.new.binders.items ≡ found.old.binders.items ++ binders e.now) }
{
    kind(s, &e.kind, e.id, found)
}

#[cycle(gathering)]
fn kind(s: &Scoped, kind: &ExprKind, node: u32, found: &mut Gathered) -> Result<(), NoMemory>
    ensures uses { OnOk result (found.new.uses.items ≡ found.old.uses.items ++ uses_of_kind (targets s.now) kind.now node) }
    ensures binders { OnOk result (found.new.binders.items ≡ found.old.binders.items ++ binders_of_kind kind.now node) }
{
    match kind {
        ExprKind::Name(_) => use_at(s, node, found),
        ExprKind::Con { name: _, arg } => match arg {
            Some(inner) => expr(s, inner.get(), found),
            None => Ok(()),
        },
        ExprKind::Cons(one, other)
        | ExprKind::Index(one, other)
        | ExprKind::Binary(_, one, other) => {
            expr(s, one.get(), found)?;
            expr(s, other.get(), found)
        }
        ExprKind::Tuple(parts) | ExprKind::List(parts) | ExprKind::Seq(parts) => exprs(
            s,
            parts.as_slice(),
            found,
        ),
        ExprKind::Fields(list) => fields(s, list.as_slice(), found),
        ExprKind::Apply(function, args) => {
            expr(s, function.get(), found)?;
            exprs(s, args.as_slice(), found)
        }
        ExprKind::If(condition, branch, other) => {
            expr(s, condition.get(), found)?;
            expr(s, branch.get(), found)?;
            match other {
                Some(other) => expr(s, other.get(), found),
                None => Ok(()),
            }
        }
        ExprKind::Let {
            recursive: _,
            binds: list,
            body,
        } => {
            binds(s, list.as_slice(), found)?;
            expr(s, body.get(), found)
        }
        ExprKind::Match(scrutinee, list) => {
            expr(s, scrutinee.get(), found)?;
            arms(s, list.as_slice(), found)
        }
        ExprKind::Fun(list, body) => {
            params(list.as_slice(), found)?;
            expr(s, body.get(), found)
        }
        ExprKind::Function(list) => arms(s, list.as_slice(), found),
        ExprKind::Field(inner, _)
        | ExprKind::Minus(inner)
        | ExprKind::Paren(inner)
        | ExprKind::Typed(inner, _)
        | ExprKind::Worded(_, inner)
        | ExprKind::Exclave(inner) => expr(s, inner.get(), found),
        ExprKind::Borrow {
            name: _,
            of: _,
            body,
        } => {
            found.binders.push(node)?;
            use_at(s, node, found)?;
            expr(s, body.get(), found)
        }
        ExprKind::Overwrite { name: _, with_con } => {
            use_at(s, node, found)?;
            expr(s, with_con.get(), found)
        }
        _ => Ok(()),
    }
}

#[tactic(auto, using(crate::proofs::Grows::grows_start, crate::proofs::Grows::grows_step, crate::proofs::Grows::grows_end))]
#[cycle(gathering)]
fn exprs(s: &Scoped, list: &[Expr], found: &mut Gathered) -> Result<(), NoMemory>
    ensures uses { OnOk result (found.new.uses.items ≡ found.old.uses.items ++ together (map (uses (targets s.now)) list.now)) }
    ensures binders { OnOk result (found.new.binders.items ≡ found.old.binders.items ++ together (map binders list.now)) }
{
    for one in list {
        expr(s, one, found)?;
    }
    Ok(())
}

#[tactic(auto, using(crate::proofs::Grows::grows_start, crate::proofs::Grows::grows_step, crate::proofs::Grows::grows_end))]
#[cycle(gathering)]
fn fields(s: &Scoped, list: &[FieldExpr], found: &mut Gathered) -> Result<(), NoMemory>
    ensures uses { OnOk result (found.new.uses.items ≡ found.old.uses.items ++ together (map (uses_of_field (targets s.now)) list.now)) }
    ensures binders { OnOk result (found.new.binders.items ≡ found.old.binders.items ++ together (map binders_of_field list.now)) }
{
    for one in list {
        field(s, one, found)?;
    }
    Ok(())
}

#[cycle(gathering)]
fn field(s: &Scoped, field: &FieldExpr, found: &mut Gathered) -> Result<(), NoMemory>
    ensures uses { OnOk result (found.new.uses.items ≡ found.old.uses.items ++ uses_of_field (targets s.now) field.now) }
    ensures binders { OnOk result (found.new.binders.items ≡ found.old.binders.items ++ binders_of_field field.now) }
{
    expr(s, &field.expr, found)
}

/// The names in arms.
#[tactic(auto, using(crate::proofs::Grows::grows_start, crate::proofs::Grows::grows_step, crate::proofs::Grows::grows_end))]
#[cycle(gathering)]
pub fn arms(s: &Scoped, list: &[Arm], found: &mut Gathered) -> Result<(), NoMemory>
    ensures uses { OnOk result (found.new.uses.items ≡ found.old.uses.items ++ together (map (uses_of_arm (targets s.now)) list.now)) }
    ensures binders { OnOk result (found.new.binders.items ≡ found.old.binders.items ++ together (map binders_of_arm list.now)) }
{
    for one in list {
        arm(s, one, found)?;
    }
    Ok(())
}

#[cycle(gathering)]
fn arm(s: &Scoped, arm: &Arm, found: &mut Gathered) -> Result<(), NoMemory>
    ensures uses { OnOk result (found.new.uses.items ≡ found.old.uses.items ++ uses_of_arm (targets s.now) arm.now) }
    ensures binders { OnOk result (found.new.binders.items ≡ found.old.binders.items ++ binders_of_arm arm.now) }
{
    pattern(&arm.pat, found)?;
    match &arm.guard {
        Some(guard) => {
            expr(s, guard, found)?;
            expr(s, &arm.body, found)
        }
        None => expr(s, &arm.body, found),
    }
}

#[tactic(auto, using(crate::proofs::Grows::grows_start, crate::proofs::Grows::grows_step, crate::proofs::Grows::grows_end))]
#[cycle(gathering)]
fn binds(s: &Scoped, list: &[Bind], found: &mut Gathered) -> Result<(), NoMemory>
    ensures uses { OnOk result (found.new.uses.items ≡ found.old.uses.items ++ together (map (uses_of_bind (targets s.now)) list.now)) }
    ensures binders { OnOk result (found.new.binders.items ≡ found.old.binders.items ++ together (map binders_of_bind list.now)) }
{
    for one in list {
        bind(s, one, found)?;
    }
    Ok(())
}

#[cycle(gathering)]
fn bind(s: &Scoped, bind: &Bind, found: &mut Gathered) -> Result<(), NoMemory>
    ensures uses { OnOk result (found.new.uses.items ≡ found.old.uses.items ++ uses_of_bind (targets s.now) bind.now) }
    ensures binders { OnOk result (found.new.binders.items ≡ found.old.binders.items ++ binders_of_bind bind.now) }
{
    pattern(&bind.pat, found)?;
    params(bind.params.as_slice(), found)?;
    expr(s, &bind.body, found)
}
