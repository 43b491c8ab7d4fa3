//! Uses of values, constructors and fields.
ghost use Rattle.std.specs.Prelude.{◌≡◌, [], map, IfOk, OnOk};
ghost use Rattle.ml_scope.specs.Uses.{value_named, constructor_named, written, field_named, record_named, record_meant, repeats, of_one, fits};

use crate::found::Found;
use crate::journal::{offence, offence_where};
use crate::known::Known;
use crate::meaning::Meaning;
use crate::scope::Scope;
use crate::shape::{Shape, miscounts};
use indexmap::IndexSet;
use ml_tree::{ConName, Ref};
use oxml_base::{Items, NoMemory, Rule, Span};
use std::alloc::Global;

/// A name of a value points to its nearest binder.
pub fn value(
    known: &Known,
    scope: &Scope,
    id: u32,
    name: Span,
    journal: &mut Items<Found>,
) -> Result<(), NoMemory>
    ensures { OnOk result (journal.new ≡ value_named known.now scope.now id name journal.old) }
{
    match scope.find(known.spelling(name)) {
        None => offence(Rule::UnboundValue, name, journal),
        Some(meaning) => Ok(journal.push(Found::Names(id, meaning.target))?),
    }
}

/// The span of a constructor that is written in a construct of the span `whole`.
fn written(name: ConName, whole: Span) -> Span
    ensures { result ≡ written name whole }
{
    match name {
        ConName::Named(place) => place,
        _ => whole,
    }
}

/// A constructor of the node `id`, with what it is given: as many fields as it has.
pub fn constructor(
    known: &Known,
    id: u32,
    whole: Span,
    name: ConName,
    given: Option<Shape>,
    journal: &mut Items<Found>,
) -> Result<(), NoMemory>
    ensures { OnOk result (journal.new ≡ constructor_named known.now id whole name given journal.old) }
{
    match known.constructor(name) {
        None => offence(Rule::UnboundConstructor, written(name, whole), journal),
        Some(meaning) => {
            journal.push(Found::Names(id, meaning.target))?;
            offence_where(
                miscounts(meaning.parts, given),
                Rule::FieldCount,
                whole,
                journal,
            )
        }
    }
}

/// A name of a field.
pub fn field(known: &Known, id: u32, name: Span, journal: &mut Items<Found>) -> Result<(), NoMemory>
    ensures { OnOk result (journal.new ≡ field_named known.now id name journal.old) }
{
    match known.field(name) {
        None => offence(Rule::UnboundConstructor, name, journal),
        Some(meaning) => Ok(journal.push(Found::Names(id, meaning.target))?),
    }
}

/// Whether a field stands a second time in a list.
fn repeats(alloc: Global, list: &[Meaning]) -> Result<bool, NoMemory>
    ensures { IfOk result (λ twice. twice ≡ repeats [] (map (λ f. f.place) list.now)) }
{
    let mut seen = IndexSet::new(alloc);
    for one in list {
        let (_, added) = seen.insert_full(one.place)?;
        if !added {
            return Ok(true);
        }
    }
    Ok(false)
}

/// Whether fields are all of one declaration.
fn of_one(declaration: u32, list: &[Meaning]) -> bool
    ensures { result ≡ of_one declaration list.now }
{
    for one in list {
        if one.declaration != declaration {
            return false;
        }
    }
    true
}

/// Whether these fields are each field of one declaration once; where not `whole`, some may be left
/// out.
fn fits(alloc: Global, whole: bool, list: &[Meaning]) -> Result<bool, NoMemory>
    ensures { IfOk result (λ fit. fit ≡ fits whole list.now) }
{
    let Some(first) = list.first() else {
        return Ok(true)
    };
    if !of_one(first.declaration, list) {
        return Ok(false);
    }
    if whole && list.len() != first.parts as usize {
        return Ok(false);
    }
    Ok(!repeats(alloc, list)?)
}

/// The declaration of a record is that of its first field.
fn record_name(first: Option<Meaning>, id: u32, journal: &mut Items<Found>) -> Result<(), NoMemory>
    ensures { OnOk result (journal.new ≡ record_meant id first journal.old) }
{
    match first {
        None => Ok(()),
        Some(meaning) => Ok(journal.push(Found::Names(id, Ref::Decl(meaning.declaration)))?),
    }
}

/// A record of the node `id` with fields of these names.
pub fn record(
    known: &Known,
    id: u32,
    span: Span,
    whole: bool,
    names: &[Span],
    journal: &mut Items<Found>,
) -> Result<(), NoMemory>
    ensures { OnOk result (journal.new ≡ record_named known.now id span whole names.now journal.old) }
{
    record_name(known.first_field(names), id, journal)?;
    match known.all_fields(names)? {
        None => Ok(()),
        Some(list) => {
            let fit = fits(known.alloc(), whole, list.as_slice())?;
            offence_where(!fit, Rule::FieldCount, span, journal)
        }
    }
}
