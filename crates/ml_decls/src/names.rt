//! Names that are declared twice.
ghost use Rattle.std.specs.Prelude.{◌≡◌, ◌||◌, ℕ, List, [], ◌++◌, map, take, drop, IfOk, OnOk};
ghost use Rattle.std.specs.Global.{Vec};
ghost use Rattle.std.specs.Str.{bytes_eq};
ghost use Rattle.ml_mentions.specs.declared.outline.Outline.{Outline};
ghost use Rattle.ml_mentions.specs.Lists.{all};
ghost use Rattle.ml_decls.specs.Offences.{spelling};
ghost use Rattle.ml_decls.specs.Verdicts.{has, twice, all_twice};

use crate::offences::offence_where;
use indexmap::IndexSet;
use ml_mentions::Outline;
use oxml_base::{Items, NoMemory, Refusal, Rule, Span};
use std::alloc::Global;

// ---- the names of each kind

fn type_names(alloc: Global, outlines: &[Outline]) -> Result<Items<Span>, NoMemory>
    ensures { IfOk result (λ names. names ≡ map (λ (o : Outline). o.name) outlines.now) }
{
    let mut names = Items::new(alloc);
    for one in outlines {
        names.push(one.name)?;
    }
    Ok(names)
}

fn push_spans(spans: &[Span], names: &mut Items<Span>) -> Result<(), NoMemory>
    ensures { OnOk result (names.new ≡ names.old ++ spans.now) }
{
    for one in spans {
        names.push(*one)?;
    }
    Ok(())
}

fn constructor_names(alloc: Global, outlines: &[Outline]) -> Result<Items<Span>, NoMemory>
    ensures { IfOk result (λ names. names ≡ all (map (λ (o : Outline). o.constructors) outlines.now)) }
{
    let mut names = Items::new(alloc);
    for one in outlines {
        push_spans(one.constructors.as_slice(), &mut names)?;
    }
    Ok(names)
}

fn field_names(alloc: Global, outlines: &[Outline]) -> Result<Items<Span>, NoMemory>
    ensures { IfOk result (λ names. names ≡ all (map (λ (o : Outline). o.fields) outlines.now)) }
{
    let mut names = Items::new(alloc);
    for one in outlines {
        push_spans(one.fields.as_slice(), &mut names)?;
    }
    Ok(names)
}

// ---- names that stand in a list before

/// What stands from a place on.
fn behind(text: &[u8], start: usize) -> &[u8]
    ensures { result.now ≡ drop start text.now }
{
    if start < text.len() {
        &text[start..]
    } else {
        &[]
    }
}

/// The first so many bytes, or all where there are fewer.
fn first(text: &[u8], count: usize) -> &[u8]
    ensures { result.now ≡ take count text.now }
{
    if count < text.len() {
        &text[..count]
    } else {
        text
    }
}

/// The bytes at a place of a text.
fn bytes_at(text: &[u8], place: Span) -> &[u8]
    ensures { result.now ≡ spelling text.now place }
{
    let length = place.end.saturating_sub(place.start);
    first(behind(text, place.start as usize), length as usize)
}

/// Puts a name into a set. The answer is whether it was there.
fn note(seen: &mut IndexSet<Vec<u8>>, name: Vec<u8>) -> Result<bool, NoMemory>
    ensures was { IfOk result (λ was. was ≡ has (λ (key : Vec ℕ). key.items) seen.old.keys name.items) }
    ensures now { OnOk result ((other : List ℕ) → has (λ (key : Vec ℕ). key.items) seen.new.keys other ≡ (bytes_eq other name.items || has (λ (key : Vec ℕ). key.items) seen.old.keys other)) }
{
    let entry = seen.insert_full(name)?;
    Ok(!entry.1)
}

/// Adds a violation for each name of a list that stands in it before.
fn report_twice(
    alloc: Global,
    text: &[u8],
    names: &[Span],
    offences: &mut Items<Refusal>,
) -> Result<(), NoMemory>
    ensures { OnOk result (offences.new ≡ offences.old ++ twice text.now [] names.now) }
{
    let mut seen = IndexSet::new(alloc);
    for name in names {
        let key = Vec::from_slice(alloc, bytes_at(text, *name))?;
        let was = note(&mut seen, key)?;
        offence_where(was, Rule::DeclaredTwice, *name, offences)?;
    }
    Ok(())
}

/// Adds a violation for each type, constructor and field whose name is that of an earlier one of its
/// kind.
pub fn report_names(
    alloc: Global,
    text: &[u8],
    outlines: &[Outline],
    offences: &mut Items<Refusal>,
) -> Result<(), NoMemory>
    ensures { OnOk result (offences.new ≡ offences.old ++ all_twice text.now outlines.now) }
{
    let types = type_names(alloc, outlines)?;
    report_twice(alloc, text, types.as_slice(), offences)?;
    let constructors = constructor_names(alloc, outlines)?;
    report_twice(alloc, text, constructors.as_slice(), offences)?;
    let fields = field_names(alloc, outlines)?;
    report_twice(alloc, text, fields.as_slice(), offences)?;
    Ok(())
}
