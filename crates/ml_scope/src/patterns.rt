//! What patterns use.
ghost use Rattle.std.specs.Prelude.{◌≡◌, ◌||◌, false, map, IfOk, OnOk};
ghost use Rattle.std.specs.Option.{option_map};
ghost use Rattle.ml_scope.specs.Journal.{each, perhaps};
ghost use Rattle.ml_scope.specs.Uses.{record_named};
ghost use Rattle.ml_scope.specs.Names.{Known};
ghost use Rattle.ml_scope.specs.Patterns.{pattern_seen, pattern_kind_seen, field_pattern_seen, param_look, any_binds, perhaps_binds};

use crate::found::Found;
use crate::journal::offence_where;
use crate::known::Known;
use crate::shape::Shape;
use crate::types::type_expr;
use crate::uses::{constructor, field, record};
use ml_tree::{FieldPat, Param, Pat, PatKind};
use oxml_base::{Items, NoMemory, Rule, Span};
use sqlite_items::Boxed;

/// What a construct sees of a pattern.
#[cycle(pattern_shapes)]
pub fn shape(pat: &Pat) -> Shape
    ensures { (k : Known) → result ≡ (pattern_seen k pat.now).shape }
{
    kind_shape(&pat.kind)
}

#[cycle(pattern_shapes)]
fn kind_shape(kind: &PatKind) -> Shape
    ensures { (k : Known) → result ≡ (pattern_kind_seen k kind.now).shape }
{
    match kind {
        PatKind::Any => Shape::Any,
        PatKind::Name(_, _) => Shape::Name,
        PatKind::Tuple(parts) => Shape::Tuple(parts.len()),
        PatKind::Paren(inner) => shape(inner.get()).inside(),
        _ => Shape::Other,
    }
}

/// What a constructor sees of its operand.
fn given(arg: &Option<Boxed<Pat>>) -> Option<Shape>
    ensures { (k : Known) → result ≡ option_map (λ q. q.shape) (option_map (pattern_seen k) arg.now) }
{
    match arg {
        None => None,
        Some(inner) => Some(shape(inner.get())),
    }
}

/// The names of the fields of a record pattern.
fn field_names(known: &Known, list: &[FieldPat]) -> Result<Items<Span>, NoMemory>
    ensures { IfOk result (λ names. names ≡ map (λ f. f.name) (map (field_pattern_seen known.now) list.now)) }
{
    let mut names = Items::new(known.alloc());
    for one in list {
        names.push(one.name)?;
    }
    Ok(names)
}

/// The declaration of a record pattern; where not `whole`, fields may be left out.
fn record_pattern(
    known: &Known,
    id: u32,
    span: Span,
    whole: bool,
    list: &[FieldPat],
    journal: &mut Items<Found>,
) -> Result<(), NoMemory>
    ensures { OnOk result (journal.new ≡ record_named known.now id span whole (map (λ f. f.name) (map (field_pattern_seen known.now) list.now)) journal.old) }
{
    let names = field_names(known, list)?;
    record(known, id, span, whole, names.as_slice(), journal)
}

/// What a pattern uses. The answer is whether it binds a name.
#[cycle(patterns)]
pub fn pattern(known: &Known, pat: &Pat, journal: &mut Items<Found>) -> Result<bool, NoMemory>
    ensures binds { IfOk result (λ b. b ≡ (pattern_seen known.now pat.now).binds) }
    ensures journal { OnOk result (journal.new ≡ (pattern_seen known.now pat.now).look journal.old) }
{
    pattern_kind(known, pat.id, pat.span, &pat.kind, journal)
}

#[cycle(patterns)]
fn pattern_kind(
    known: &Known,
    id: u32,
    span: Span,
    kind: &PatKind,
    journal: &mut Items<Found>,
) -> Result<bool, NoMemory>
    ensures binds { IfOk result (λ b. b ≡ (pattern_kind_seen known.now kind.now).binds) }
    ensures journal { OnOk result (journal.new ≡ (pattern_kind_seen known.now kind.now).look id span journal.old) }
{
    match kind {
        PatKind::Name(_, _) => Ok(true),
        PatKind::Con { name, arg } => {
            constructor(known, id, span, *name, given(arg), journal)?;
            operand(known, arg, journal)
        }
        PatKind::Cons(one, other) => {
            let first = pattern(known, one.get(), journal)?;
            let second = pattern(known, other.get(), journal)?;
            Ok(first || second)
        }
        PatKind::Tuple(parts) | PatKind::List(parts) => patterns(known, parts.as_slice(), journal),
        PatKind::Fields { list, rest } => {
            record_pattern(known, id, span, !*rest, list.as_slice(), journal)?;
            fields(known, list.as_slice(), journal)
        }
        PatKind::Or(one, other) => {
            let first = pattern(known, one.get(), journal)?;
            let second = pattern(known, other.get(), journal)?;
            let binds = first || second;
            offence_where(binds, Rule::LeftOut, span, journal)?;
            Ok(binds)
        }
        PatKind::Named(inner, _) => {
            pattern(known, inner.get(), journal)?;
            Ok(true)
        }
        PatKind::Typed(inner, ty) => {
            let binds = pattern(known, inner.get(), journal)?;
            type_expr(known, ty, journal)?;
            Ok(binds)
        }
        PatKind::Paren(inner) => pattern(known, inner.get(), journal),
        _ => Ok(false),
    }
}

/// The operand of a constructor.
#[cycle(patterns)]
fn operand(
    known: &Known,
    arg: &Option<Boxed<Pat>>,
    journal: &mut Items<Found>,
) -> Result<bool, NoMemory>
    ensures binds { IfOk result (λ b. b ≡ perhaps_binds (option_map (λ q. q.binds) (option_map (pattern_seen known.now) arg.now))) }
    ensures journal { OnOk result (journal.new ≡ perhaps (option_map (λ q. q.look) (option_map (pattern_seen known.now) arg.now)) journal.old) }
{
    match arg {
        None => Ok(false),
        Some(inner) => pattern(known, inner.get(), journal),
    }
}

#[cycle(patterns)]
fn patterns(known: &Known, list: &[Pat], journal: &mut Items<Found>) -> Result<bool, NoMemory>
    ensures binds { IfOk result (λ b. b ≡ any_binds (map (λ q. q.binds) (map (pattern_seen known.now) list.now))) }
    ensures journal { OnOk result (journal.new ≡ each (map (λ q. q.look) (map (pattern_seen known.now) list.now)) journal.old) }
{
    let mut binds = false;
    for one in list {
        let more = pattern(known, one, journal)?;
        binds = binds || more;
    }
    Ok(binds)
}

#[cycle(patterns)]
fn fields(known: &Known, list: &[FieldPat], journal: &mut Items<Found>) -> Result<bool, NoMemory>
    ensures binds { IfOk result (λ b. b ≡ any_binds (map (λ q. q.binds) (map (field_pattern_seen known.now) list.now))) }
    ensures journal { OnOk result (journal.new ≡ each (map (λ q. q.look) (map (field_pattern_seen known.now) list.now)) journal.old) }
{
    let mut binds = false;
    for one in list {
        let more = field_pattern(known, one, journal)?;
        binds = binds || more;
    }
    Ok(binds)
}

#[cycle(patterns)]
fn field_pattern(
    known: &Known,
    one: &FieldPat,
    journal: &mut Items<Found>,
) -> Result<bool, NoMemory>
    ensures binds { IfOk result (λ b. b ≡ (field_pattern_seen known.now one.now).binds) }
    ensures journal { OnOk result (journal.new ≡ (field_pattern_seen known.now one.now).look journal.old) }
{
    field(known, one.id, one.name, journal)?;
    pattern(known, &one.pat, journal)
}

/// What the parameters of a function use.
pub fn params(known: &Known, list: &[Param], journal: &mut Items<Found>) -> Result<(), NoMemory>
    ensures { OnOk result (journal.new ≡ each (map (param_look known.now) list.now) journal.old) }
{
    for one in list {
        pattern(known, &one.pat, journal)?;
    }
    Ok(())
}
