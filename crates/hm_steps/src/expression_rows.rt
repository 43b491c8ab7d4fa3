//! The equations of an expression's own row.
ghost use Rattle.std.specs.Prelude.{◌≡◌, ℕ, [], ◌∷◌, ◌++◌, map, IfOk};
ghost use Rattle.std.specs.Option.{option_map};
ghost use Rattle.ml_typing.specs.declared.equation.Unknown.TheVariants.{Node};
ghost use Rattle.ml_typing.specs.declared.equation.Term.TheVariants.{Tuple};
ghost use Rattle.ml_typing.specs.Written.{Names};
ghost use Rattle.ml_typing.specs.Rows.{equation, type_of, at, each_is, argument_is, fields_are};
ghost use Rattle.ml_typing.specs.Steps.{expression, expr_kind, field_expr, operator, both, branch_is, last_is};
ghost use Rattle.ml_typing.specs.Typing.{names_of};

use crate::applications::apply_row;
use crate::matches::{arms_are, function_row};
use crate::pattern_rows::types_of;
use crate::rows::{argument, con_term, field_term, name_term, record_term};
use crate::terms::{and, bool, char, fresh, int, list_of, node, one, string, unit};
use crate::written::written;
use ml_tree::{BinOp, Expr, ExprKind, FieldExpr, Scoped};
use ml_typing::{Equation, Term, Unknown};
use oxml_base::{Items, NoMemory, Span};
use sqlite_items::Boxed;
use std::alloc::Global;

/// The equations of the row of an expression's node, by its number, its span and its kind. Where the
/// node's own type is new it comes first, so that it is never what fails.
pub fn row(
    alloc: Global,
    s: &Scoped,
    item: u32,
    n: u32,
    span: Span,
    kind: &ExprKind,
) -> Result<Items<Equation>, NoMemory>
    ensures { IfOk result (λ es. es ≡ (expr_kind (names_of s.now.refs s.now.types item) kind.now).own n span) }
{
    let own = Unknown::Node(n);
    match kind {
        ExprKind::Int(_) => one(alloc, span, own, int(alloc)),
        ExprKind::Char(_) => one(alloc, span, own, char(alloc)),
        ExprKind::Text(_) => one(alloc, span, own, string(alloc)),
        ExprKind::Name(_) => one(alloc, span, own, name_term(alloc, s, n)),
        ExprKind::Path(_, _) => one(alloc, span, own, name_term(alloc, s, n)),
        ExprKind::Con { name, arg } => {
            let first = one(alloc, span, own, con_term(alloc, s, n, *name)?)?;
            argument_is(first, alloc, s, n, arg)
        }
        ExprKind::Cons(first, rest) => {
            let list = one(alloc, span, own, list_of(alloc, fresh(n, 0))?)?;
            let element = part_is(list, first.get(), fresh(n, 0))?;
            part_is(element, rest.get(), list_of(alloc, fresh(n, 0))?)
        }
        ExprKind::Tuple(list) => one(alloc, span, own, product(alloc, list.as_slice())?),
        ExprKind::List(list) => {
            let first = one(alloc, span, own, list_of(alloc, fresh(n, 0))?)?;
            elements(first, n, list.as_slice())
        }
        ExprKind::Fields(list) => {
            let first = one(alloc, span, own, record_term(alloc, s, n))?;
            field_types(first, alloc, s, item, n, list.as_slice())
        }
        ExprKind::Field(inner, _) => {
            let first = one(alloc, span, own, field_term(alloc, s, n, n))?;
            part_is(first, inner.get(), record_term(alloc, s, n))
        }
        ExprKind::Index(text, place) => {
            let first = one(alloc, span, own, char(alloc))?;
            let second = part_is(first, text.get(), string(alloc))?;
            part_is(second, place.get(), int(alloc))
        }
        ExprKind::Apply(function, args) => apply_row(alloc, n, function.get(), args.as_slice()),
        ExprKind::Binary(op, first, second) => {
            binary_row(alloc, n, span, *op, first.get(), second.get())
        }
        ExprKind::Minus(inner) => {
            let first = one(alloc, span, own, int(alloc))?;
            part_is(first, inner.get(), int(alloc))
        }
        ExprKind::If(condition, branch, other) => {
            let first = part_is(Items::new(alloc), condition.get(), bool(alloc))?;
            let second = part_is(first, branch.get(), node(n))?;
            branch_is(second, alloc, n, span, other)
        }
        ExprKind::Seq(list) => last_is(alloc, n, list.as_slice()),
        ExprKind::Match(_, arms) => arms_are(Items::new(alloc), alloc, arms.as_slice(), own),
        ExprKind::Fun(params, body) => {
            let types = types_of(alloc, params.as_slice())?;
            let result = Boxed::new(alloc, node(body.get().id))?;
            one(alloc, span, own, Term::Function(types, result))
        }
        ExprKind::Function(arms) => function_row(alloc, n, span, arms.as_slice()),
        ExprKind::Typed(inner, ty) => {
            let first = one(alloc, span, own, written(alloc, s, item, ty)?)?;
            part_is(first, inner.get(), node(n))
        }
        ExprKind::Borrow { name: _, of, body } => {
            let first = one(alloc, *of, Unknown::Binder(n), name_term(alloc, s, n))?;
            part_is(first, body.get(), node(n))
        }
        ExprKind::Let {
            recursive: _,
            binds: _,
            body: inner,
        } => part_is(Items::new(alloc), inner.get(), node(n)),
        ExprKind::Paren(inner) => part_is(Items::new(alloc), inner.get(), node(n)),
        ExprKind::Worded(_, inner) => part_is(Items::new(alloc), inner.get(), node(n)),
        ExprKind::Exclave(inner) => part_is(Items::new(alloc), inner.get(), node(n)),
        ExprKind::Overwrite {
            name: _,
            with_con: inner,
        } => part_is(Items::new(alloc), inner.get(), node(n)),
    }
}

/// One equation more: the type of a part.
pub fn part_is(list: Items<Equation>, e: &Expr, right: Term) -> Result<Items<Equation>, NoMemory>
    ensures { IfOk result (λ es. es ≡ list ++ equation e.now.span (Node e.now.id) right ∷ []) }
{
    and(list, e.span, Unknown::Node(e.id), right)
}

/// The argument of a constructor has the type of its field, or the product of its fields' types.
fn argument_is(
    list: Items<Equation>,
    alloc: Global,
    s: &Scoped,
    n: u32,
    arg: &Option<Boxed<Expr>>,
) -> Result<Items<Equation>, NoMemory>
    ensures { IfOk result (λ es. (item : ℕ) → es ≡ list ++ argument_is (names_of s.now.refs s.now.types item) n (option_map (expression (names_of s.now.refs s.now.types item)) arg.now)) }
{
    match arg {
        Some(inner) => part_is(list, inner.get(), argument(alloc, s, n)),
        None => Ok(list),
    }
}

/// An `else` branch has the node's type, and without one the node is `unit`.
fn branch_is(
    list: Items<Equation>,
    alloc: Global,
    n: u32,
    span: Span,
    other: &Option<Boxed<Expr>>,
) -> Result<Items<Equation>, NoMemory>
    ensures { IfOk result (λ es. (names : Names) → es ≡ list ++ branch_is n span (option_map (expression names) other.now)) }
{
    match other {
        Some(inner) => part_is(list, inner.get(), node(n)),
        None => and(list, span, Unknown::Node(n), unit(alloc)),
    }
}

/// The product of the types of expressions.
fn product(alloc: Global, list: &[Expr]) -> Result<Term, NoMemory>
    ensures { IfOk result (λ t. (names : Names) → t ≡ Tuple (map type_of (map (expression names) list.now))) }
{
    let mut terms = Items::new(alloc);
    for e in list {
        terms.push(node(e.id))?;
    }
    Ok(Term::Tuple(terms))
}

/// Each element has the first fresh type of the list.
fn elements(list: Items<Equation>, n: u32, parts: &[Expr]) -> Result<Items<Equation>, NoMemory>
    ensures { IfOk result (λ es. (names : Names) → es ≡ list ++ each_is (at n 0) (map (expression names) parts.now)) }
{
    let mut all = list;
    for e in parts {
        all = part_is(all, e, fresh(n, 0))?;
    }
    Ok(all)
}

/// Each field has its declared type.
fn field_types(
    list: Items<Equation>,
    alloc: Global,
    s: &Scoped,
    item: u32,
    n: u32,
    fields: &[FieldExpr],
) -> Result<Items<Equation>, NoMemory>
    ensures { IfOk result (λ es. es ≡ list ++ fields_are (names_of s.now.refs s.now.types item) n (map (field_expr (names_of s.now.refs s.now.types item)) fields.now)) }
{
    let mut all = list;
    for field in fields {
        all = part_is(all, &field.expr, field_term(alloc, s, field.id, n))?;
    }
    Ok(all)
}

/// The type of the operands of an operator, and that of its result.
fn operator(alloc: Global, n: u32, op: BinOp) -> Result<(Term, Term, Term), NoMemory>
    ensures { IfOk result (λ r. r ≡ ((operator op).result n, (operator op).operand n, (operator op).operand n)) }
{
    match op {
        BinOp::Add
        | BinOp::Sub
        | BinOp::Mul
        | BinOp::Div
        | BinOp::Mod
        | BinOp::And
        | BinOp::Or
        | BinOp::Xor
        | BinOp::Lsl
        | BinOp::Lsr
        | BinOp::Asr => Ok((int(alloc), int(alloc), int(alloc))),
        BinOp::Eq | BinOp::Ne | BinOp::Lt | BinOp::Gt | BinOp::Le | BinOp::Ge => {
            Ok((bool(alloc), fresh(n, 0), fresh(n, 0)))
        }
        BinOp::Append => Ok((
            list_of(alloc, fresh(n, 0))?,
            list_of(alloc, fresh(n, 0))?,
            list_of(alloc, fresh(n, 0))?,
        )),
        BinOp::Join => Ok((string(alloc), string(alloc), string(alloc))),
        BinOp::BoolAnd | BinOp::BoolOr => Ok((bool(alloc), bool(alloc), bool(alloc))),
    }
}

fn binary_row(
    alloc: Global,
    n: u32,
    span: Span,
    op: BinOp,
    left: &Expr,
    right: &Expr,
) -> Result<Items<Equation>, NoMemory>
    ensures { IfOk result (λ es. es ≡ equation span (Node n) ((operator op).result n) ∷ equation left.now.span (Node left.now.id) ((operator op).operand n) ∷ equation right.now.span (Node right.now.id) ((operator op).operand n) ∷ []) }
{
    let (result, first, second) = operator(alloc, n, op)?;
    let own = one(alloc, span, Unknown::Node(n), result)?;
    let both = part_is(own, left, first)?;
    part_is(both, right, second)
}

/// The last part has the node's type.
fn last_is(alloc: Global, n: u32, list: &[Expr]) -> Result<Items<Equation>, NoMemory>
    ensures { IfOk result (λ es. (names : Names) → es ≡ last_is n (map (expression names) list.now)) }
{
    match list.last() {
        Some(last) => part_is(Items::new(alloc), last, node(n)),
        None => Ok(Items::new(alloc)),
    }
}
