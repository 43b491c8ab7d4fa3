//! The equations of a pattern's own row.
ghost use Rattle.std.specs.Prelude.{◌≡◌, ℕ, [], ◌∷◌, ◌++◌, map, IfOk};
ghost use Rattle.std.specs.Option.{option_map};
ghost use Rattle.ml_typing.specs.declared.equation.Unknown.TheVariants.{Node};
ghost use Rattle.ml_typing.specs.declared.equation.Term.TheVariants.{Tuple};
ghost use Rattle.ml_typing.specs.Written.{Names};
ghost use Rattle.ml_typing.specs.Rows.{equation, pattern, pattern_kind, field_pattern, type_of, at, each_is, argument_is, fields_are};
ghost use Rattle.ml_typing.specs.Steps.{param_parts};
ghost use Rattle.ml_typing.specs.Typing.{names_of};

use crate::rows::{argument, con_term, field_term, record_term};
use crate::terms::{and, char, fresh, int, list_of, node, one, string};
use crate::written::written;
use ml_tree::{FieldPat, Param, Pat, PatKind, Scoped};
use ml_typing::{Equation, Term, Unknown};
use oxml_base::{Items, NoMemory, Span};
use sqlite_items::Boxed;
use std::alloc::Global;

/// The equations of the row of a pattern's node, by its number, its span and its kind. The node's own
/// type comes first; it is new there, so that it is never what fails.
pub fn row(
    alloc: Global,
    s: &Scoped,
    item: u32,
    n: u32,
    span: Span,
    kind: &PatKind,
) -> Result<Items<Equation>, NoMemory>
    ensures { IfOk result (λ es. es ≡ (pattern_kind (names_of s.now.refs s.now.types item) kind.now).own n span) }
{
    let own = Unknown::Node(n);
    match kind {
        PatKind::Any => Ok(Items::new(alloc)),
        PatKind::Name(_, _) => one(alloc, span, own, Term::Of(Unknown::Binder(n))),
        PatKind::Int(_) => one(alloc, span, own, int(alloc)),
        PatKind::Char(_) => one(alloc, span, own, char(alloc)),
        PatKind::Text(_) => one(alloc, span, own, string(alloc)),
        PatKind::Con { name, arg } => {
            let first = one(alloc, span, own, con_term(alloc, s, n, *name)?)?;
            argument_is(first, alloc, s, n, arg)
        }
        PatKind::Cons(first, rest) => {
            let list = one(alloc, span, own, list_of(alloc, fresh(n, 0))?)?;
            let element = part_is(list, first.get(), fresh(n, 0))?;
            part_is(element, rest.get(), list_of(alloc, fresh(n, 0))?)
        }
        PatKind::Tuple(list) => one(alloc, span, own, product(alloc, list.as_slice())?),
        PatKind::List(list) => {
            let first = one(alloc, span, own, list_of(alloc, fresh(n, 0))?)?;
            elements(first, n, list.as_slice())
        }
        PatKind::Fields { list, rest: _ } => {
            let first = one(alloc, span, own, record_term(alloc, s, n))?;
            field_types(first, alloc, s, item, n, list.as_slice())
        }
        PatKind::Or(one, other) => {
            let first = part_is(Items::new(alloc), one.get(), node(n))?;
            part_is(first, other.get(), node(n))
        }
        PatKind::Named(inner, _) => {
            let first = one(alloc, span, own, Term::Of(Unknown::Binder(n)))?;
            part_is(first, inner.get(), node(n))
        }
        PatKind::Typed(inner, ty) => {
            let first = one(alloc, span, own, written(alloc, s, item, ty)?)?;
            part_is(first, inner.get(), node(n))
        }
        PatKind::Paren(inner) => part_is(Items::new(alloc), inner.get(), node(n)),
    }
}

/// One equation more: the type of a part.
fn part_is(list: Items<Equation>, q: &Pat, right: Term) -> Result<Items<Equation>, NoMemory>
    ensures { IfOk result (λ es. es ≡ list ++ equation q.now.span (Node q.now.id) right ∷ []) }
{
    and(list, q.span, Unknown::Node(q.id), right)
}

/// The argument of a constructor has the type of its field, or the product of its fields' types.
fn argument_is(
    list: Items<Equation>,
    alloc: Global,
    s: &Scoped,
    n: u32,
    arg: &Option<Boxed<Pat>>,
) -> Result<Items<Equation>, NoMemory>
    ensures { IfOk result (λ es. (item : ℕ) → es ≡ list ++ argument_is (names_of s.now.refs s.now.types item) n (option_map (pattern (names_of s.now.refs s.now.types item)) arg.now)) }
{
    match arg {
        Some(inner) => part_is(list, inner.get(), argument(alloc, s, n)),
        None => Ok(list),
    }
}

/// The product of the types of patterns.
fn product(alloc: Global, list: &[Pat]) -> Result<Term, NoMemory>
    ensures { IfOk result (λ t. (names : Names) → t ≡ Tuple (map type_of (map (pattern names) list.now))) }
{
    let mut terms = Items::new(alloc);
    for q in list {
        terms.push(node(q.id))?;
    }
    Ok(Term::Tuple(terms))
}

/// The types of the patterns of parameters, in order.
pub fn types_of(alloc: Global, list: &[Param]) -> Result<Items<Term>, NoMemory>
    ensures { IfOk result (λ ts. (names : Names) → ts ≡ map type_of (param_parts names list.now)) }
{
    let mut terms = Items::new(alloc);
    for param in list {
        terms.push(node(param.pat.id))?;
    }
    Ok(terms)
}

/// Each element has the first fresh type of the list.
fn elements(list: Items<Equation>, n: u32, parts: &[Pat]) -> Result<Items<Equation>, NoMemory>
    ensures { IfOk result (λ es. (names : Names) → es ≡ list ++ each_is (at n 0) (map (pattern names) parts.now)) }
{
    let mut all = list;
    for q in parts {
        all = part_is(all, q, fresh(n, 0))?;
    }
    Ok(all)
}

/// Each field has its declared type.
fn field_types(
    list: Items<Equation>,
    alloc: Global,
    s: &Scoped,
    item: u32,
    n: u32,
    fields: &[FieldPat],
) -> Result<Items<Equation>, NoMemory>
    ensures { IfOk result (λ es. es ≡ list ++ fields_are (names_of s.now.refs s.now.types item) n (map (field_pattern (names_of s.now.refs s.now.types item)) fields.now)) }
{
    let mut all = list;
    for field in fields {
        all = part_is(all, &field.pat, field_term(alloc, s, field.id, n))?;
    }
    Ok(all)
}
