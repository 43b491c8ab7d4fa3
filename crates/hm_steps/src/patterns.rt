//! The steps of patterns: those of a pattern's parts from left to right, then its own.
ghost use Rattle.std.specs.Prelude.{◌≡◌, ℕ, [], ◌∷◌, ◌++◌, None, Some, map, OnOk, IfOk};
ghost use Rattle.std.specs.Option.{option_map};
ghost use Rattle.ml_typing.specs.declared.equation.Unknown.TheVariants.{Node};
ghost use Rattle.ml_typing.specs.declared.equation.Term.TheVariants.{Of};
ghost use Rattle.ml_typing.specs.Written.{Names};
ghost use Rattle.ml_typing.specs.Rows.{equation, pattern, pattern_kind, field_pattern, steps_and, steps_of, steps_of_any, all_steps, field_parts, scrutinee_is};
ghost use Rattle.ml_typing.specs.Steps.{param_parts};
ghost use Rattle.ml_typing.specs.Typing.{names_of};

use crate::pattern_rows::row;
use crate::terms::{and, node, one};
use ml_tree::{FieldPat, Param, Pat, PatKind, Scoped};
use ml_typing::{Equation, Step, Term, Unknown};
use oxml_base::{Items, NoMemory, Span};
use sqlite_items::Boxed;
use std::alloc::Global;

/// One step more.
pub fn push(
    steps: &mut Items<Step>,
    span: Span,
    node: Option<u32>,
    equations: Items<Equation>,
) -> Result<(), NoMemory>
    ensures { OnOk result (steps.new ≡ steps.old ++ record { span = span; node = node; equations = equations; compared = None } ∷ []) }
{
    steps.push(Step {
        span,
        node,
        equations,
        compared: None,
    })?;
    Ok(())
}

/// Appends the steps of a pattern. The top pattern of an arm has, behind its own equations, the type
/// of the scrutinee.
#[cycle(patterns)]
pub fn pattern(
    alloc: Global,
    s: &Scoped,
    item: u32,
    q: &Pat,
    scrutinee: Option<Unknown>,
    steps: &mut Items<Step>,
) -> Result<(), NoMemory>
    ensures { OnOk result (steps.new ≡ steps.old ++ steps_and (pattern (names_of s.now.refs s.now.types item) q.now) (scrutinee_is (pattern (names_of s.now.refs s.now.types item) q.now) scrutinee)) }
{
    parts(alloc, s, item, &q.kind, steps)?;
    let own = row(alloc, s, item, q.id, q.span, &q.kind)?;
    let equations = with_scrutinee(own, q, scrutinee)?;
    push(steps, q.span, Some(q.id), equations)?;
    Ok(())
}

fn with_scrutinee(
    own: Items<Equation>,
    q: &Pat,
    scrutinee: Option<Unknown>,
) -> Result<Items<Equation>, NoMemory>
    ensures { IfOk result (λ es. (names : Names) → es ≡ own ++ scrutinee_is (pattern names q.now) scrutinee) }
{
    match scrutinee {
        Some(unknown) => and(own, q.span, Unknown::Node(q.id), Term::Of(unknown)),
        None => Ok(own),
    }
}

/// Appends the steps of the parts of a pattern.
#[cycle(patterns)]
fn parts(
    alloc: Global,
    s: &Scoped,
    item: u32,
    kind: &PatKind,
    steps: &mut Items<Step>,
) -> Result<(), NoMemory>
    ensures { OnOk result ((n : ℕ) → steps.new ≡ steps.old ++ (pattern_kind (names_of s.now.refs s.now.types item) kind.now).before n) }
{
    match kind {
        PatKind::Con { name: _, arg } => {
            argument(alloc, s, item, arg, steps)?;
            Ok(())
        }
        PatKind::Cons(first, second) => {
            pattern(alloc, s, item, first.get(), None, steps)?;
            pattern(alloc, s, item, second.get(), None, steps)?;
            Ok(())
        }
        PatKind::Or(first, second) => {
            pattern(alloc, s, item, first.get(), None, steps)?;
            pattern(alloc, s, item, second.get(), None, steps)?;
            Ok(())
        }
        PatKind::Tuple(list) => {
            patterns(alloc, s, item, list.as_slice(), steps)?;
            Ok(())
        }
        PatKind::List(list) => {
            patterns(alloc, s, item, list.as_slice(), steps)?;
            Ok(())
        }
        PatKind::Fields { list, rest: _ } => {
            fields(alloc, s, item, list.as_slice(), steps)?;
            Ok(())
        }
        PatKind::Named(inner, _) => {
            pattern(alloc, s, item, inner.get(), None, steps)?;
            Ok(())
        }
        PatKind::Typed(inner, _) => {
            pattern(alloc, s, item, inner.get(), None, steps)?;
            Ok(())
        }
        PatKind::Paren(inner) => {
            pattern(alloc, s, item, inner.get(), None, steps)?;
            Ok(())
        }
        PatKind::Any => Ok(()),
        PatKind::Name(_, _) => Ok(()),
        PatKind::Int(_) => Ok(()),
        PatKind::Char(_) => Ok(()),
        PatKind::Text(_) => Ok(()),
    }
}

/// Appends the steps of a constructor's argument.
#[cycle(patterns)]
fn argument(
    alloc: Global,
    s: &Scoped,
    item: u32,
    arg: &Option<Boxed<Pat>>,
    steps: &mut Items<Step>,
) -> Result<(), NoMemory>
    ensures { OnOk result (steps.new ≡ steps.old ++ steps_of_any (option_map (pattern (names_of s.now.refs s.now.types item)) arg.now)) }
{
    match arg {
        Some(inner) => {
            pattern(alloc, s, item, inner.get(), None, steps)?;
            Ok(())
        }
        None => Ok(()),
    }
}

#[cycle(patterns)]
fn patterns(
    alloc: Global,
    s: &Scoped,
    item: u32,
    list: &[Pat],
    steps: &mut Items<Step>,
) -> Result<(), NoMemory>
    ensures { OnOk result (steps.new ≡ steps.old ++ all_steps (map (pattern (names_of s.now.refs s.now.types item)) list.now)) }
{
    for q in list {
        pattern(alloc, s, item, q, None, steps)?;
    }
    Ok(())
}

#[cycle(patterns)]
fn fields(
    alloc: Global,
    s: &Scoped,
    item: u32,
    list: &[FieldPat],
    steps: &mut Items<Step>,
) -> Result<(), NoMemory>
    ensures { OnOk result (steps.new ≡ steps.old ++ all_steps (field_parts (map (field_pattern (names_of s.now.refs s.now.types item)) list.now))) }
{
    for one in list {
        field(alloc, s, item, one, steps)?;
    }
    Ok(())
}

#[cycle(patterns)]
fn field(
    alloc: Global,
    s: &Scoped,
    item: u32,
    one: &FieldPat,
    steps: &mut Items<Step>,
) -> Result<(), NoMemory>
    ensures { OnOk result (steps.new ≡ steps.old ++ steps_of (field_pattern (names_of s.now.refs s.now.types item) one.now).part) }
{
    pattern(alloc, s, item, &one.pat, None, steps)?;
    field_step(alloc, one.id, one.name, one.pat.id, one.pat.span, steps)?;
    Ok(())
}

/// Appends the step of a record's field, which has the type of its expression or pattern.
pub fn field_step(
    alloc: Global,
    id: u32,
    name: Span,
    inner: u32,
    span: Span,
    steps: &mut Items<Step>,
) -> Result<(), NoMemory>
    ensures { OnOk result (steps.new ≡ steps.old ++ record { span = record { start = name.start; «end» = span.«end» }; node = Some id; equations = equation span (Node id) (Of (Node inner)) ∷ []; compared = None } ∷ []) }
{
    let own = one(alloc, span, Unknown::Node(id), node(inner))?;
    let whole = Span {
        start: name.start,
        end: span.end,
    };
    push(steps, whole, Some(id), own)
}

/// Appends the steps of parameters.
pub fn params(
    alloc: Global,
    s: &Scoped,
    item: u32,
    list: &[Param],
    steps: &mut Items<Step>,
) -> Result<(), NoMemory>
    ensures { OnOk result (steps.new ≡ steps.old ++ all_steps (param_parts (names_of s.now.refs s.now.types item) list.now)) }
{
    for param in list {
        pattern(alloc, s, item, &param.pat, None, steps)?;
    }
    Ok(())
}
