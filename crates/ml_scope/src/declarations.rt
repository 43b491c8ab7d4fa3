//! What declarations declare and use.
ghost use Rattle.std.specs.Prelude.{◌≡◌, ◌+◌, [], map, IfOk, OnOk, length};
ghost use Rattle.ml_scope.specs.Journal.{each};
ghost use Rattle.ml_scope.specs.Types.{arg_look};
ghost use Rattle.ml_scope.specs.Items.{field_at, with_types, constructors_from, fields_from, body_constructors, body_fields, with_constructors, with_fields, variable, con_look, field_look, body_look, lists, decl_look};

use crate::binder::Binder;
use crate::binding::report_twice;
use crate::found::Found;
use crate::known::{Known, spelling};
use crate::meaning::Meaning;
use crate::scope::Scope;
use crate::types::{arg, type_expr};
use crate::world::{constructor_at, type_at};
use ml_tree::{Arg, ConDecl, Decl, DeclBody, FieldDecl, Ref};
use oxml_base::{Items, NoMemory, Span};

/// The number after this one; there are fewer than 2^32 declarations, constructors and fields.
fn after(number: u32) -> Result<u32, NoMemory>
    ensures { IfOk result (λ n. n ≡ number + 1) }
{
    number.checked_add(1).ok_or(NoMemory)
}

fn count(length: usize) -> Result<u32, NoMemory>
    ensures { IfOk result (λ n. n ≡ length) }
{
    match u32::try_from(length) {
        Ok(n) => Ok(n),
        Err(_) => Err(NoMemory),
    }
}

/// The names of the types that an item declares, numbered from `first` on.
pub fn declare_types(
    text: &[u8],
    first: u32,
    list: &[Decl],
    scope: &mut Scope,
) -> Result<u32, NoMemory>
    ensures scope { OnOk result (scope.new ≡ with_types text.now first list.now scope.old) }
    ensures next { IfOk result (λ n. n ≡ first + length list.now) }
{
    let mut number = first;
    for one in list {
        scope.bind(spelling(text, one.name), type_at(number))?;
        number = after(number)?;
    }
    Ok(number)
}

/// The constructors of the declaration of this number.
fn declare_variant(
    text: &[u8],
    number: u32,
    list: &[ConDecl],
    scope: &mut Scope,
) -> Result<(), NoMemory>
    ensures { OnOk result (scope.new ≡ constructors_from text.now number 0 list.now scope.old) }
{
    let mut place = 0;
    for one in list {
        let parts = count(one.args.len())?;
        scope.bind(
            spelling(text, one.name),
            constructor_at(number, place, parts),
        )?;
        place = after(place)?;
    }
    Ok(())
}

fn field_at(declaration: u32, place: u32, parts: u32) -> Meaning
    ensures { result ≡ field_at declaration place parts }
{
    Meaning {
        target: Ref::Field(declaration, place),
        declaration,
        place,
        parts,
    }
}

/// The fields of the declaration of this number.
fn declare_record(
    text: &[u8],
    number: u32,
    list: &[FieldDecl],
    scope: &mut Scope,
) -> Result<(), NoMemory>
    ensures { OnOk result (scope.new ≡ fields_from text.now number 0 (length list.now) list.now scope.old) }
{
    let parts = count(list.len())?;
    let mut place = 0;
    for one in list {
        scope.bind(spelling(text, one.name), field_at(number, place, parts))?;
        place = after(place)?;
    }
    Ok(())
}

fn body_constructors(
    text: &[u8],
    number: u32,
    body: &DeclBody,
    scope: &mut Scope,
) -> Result<(), NoMemory>
    ensures { OnOk result (scope.new ≡ body_constructors text.now number body.now scope.old) }
{
    match body {
        DeclBody::Variant(list) => declare_variant(text, number, list.as_slice(), scope),
        DeclBody::Fields(_) => Ok(()),
        DeclBody::Alias(_) => Ok(()),
    }
}

fn body_fields(text: &[u8], number: u32, body: &DeclBody, scope: &mut Scope) -> Result<(), NoMemory>
    ensures { OnOk result (scope.new ≡ body_fields text.now number body.now scope.old) }
{
    match body {
        DeclBody::Variant(_) => Ok(()),
        DeclBody::Fields(list) => declare_record(text, number, list.as_slice(), scope),
        DeclBody::Alias(_) => Ok(()),
    }
}

/// The constructors that an item declares, its declarations numbered from `first` on.
pub fn declare_constructors(
    text: &[u8],
    first: u32,
    list: &[Decl],
    scope: &mut Scope,
) -> Result<(), NoMemory>
    ensures { OnOk result (scope.new ≡ with_constructors text.now first list.now scope.old) }
{
    let mut number = first;
    for one in list {
        body_constructors(text, number, &one.body, scope)?;
        number = after(number)?;
    }
    Ok(())
}

/// The fields that an item declares, its declarations numbered from `first` on.
pub fn declare_fields(
    text: &[u8],
    first: u32,
    list: &[Decl],
    scope: &mut Scope,
) -> Result<(), NoMemory>
    ensures { OnOk result (scope.new ≡ with_fields text.now first list.now scope.old) }
{
    let mut number = first;
    for one in list {
        body_fields(text, number, &one.body, scope)?;
        number = after(number)?;
    }
    Ok(())
}

fn args(known: &Known, list: &[Arg], journal: &mut Items<Found>) -> Result<(), NoMemory>
    ensures { OnOk result (journal.new ≡ each (map (arg_look known.now) list.now) journal.old) }
{
    for one in list {
        arg(known, one, journal)?;
    }
    Ok(())
}

fn constructors(known: &Known, list: &[ConDecl], journal: &mut Items<Found>) -> Result<(), NoMemory>
    ensures { OnOk result (journal.new ≡ each (map (con_look known.now) list.now) journal.old) }
{
    for one in list {
        args(known, one.args.as_slice(), journal)?;
    }
    Ok(())
}

fn fields(known: &Known, list: &[FieldDecl], journal: &mut Items<Found>) -> Result<(), NoMemory>
    ensures { OnOk result (journal.new ≡ each (map (field_look known.now) list.now) journal.old) }
{
    for one in list {
        arg(known, &one.arg, journal)?;
    }
    Ok(())
}

fn body(known: &Known, body: &DeclBody, journal: &mut Items<Found>) -> Result<(), NoMemory>
    ensures { OnOk result (journal.new ≡ body_look known.now body.now journal.old) }
{
    match body {
        DeclBody::Variant(list) => constructors(known, list.as_slice(), journal),
        DeclBody::Fields(list) => fields(known, list.as_slice(), journal),
        DeclBody::Alias(ty) => type_expr(known, ty, journal),
    }
}

/// The variables of a declaration, as names of one group.
fn variables(known: &Known, list: &[Span]) -> Result<Items<Binder>, NoMemory>
    ensures { IfOk result (λ names. names ≡ map variable list.now) }
{
    let mut names = Items::new(known.alloc());
    for one in list {
        names.push(Binder {
            name: *one,
            node: 0,
        })?;
    }
    Ok(names)
}

fn list_variables(list: &[Span], journal: &mut Items<Found>) -> Result<(), NoMemory>
    ensures { OnOk result (journal.new ≡ each (map lists list.now) journal.old) }
{
    for one in list {
        journal.push(Found::Lists(*one))?;
    }
    Ok(())
}

/// What a declaration uses.
fn declaration(known: &Known, one: &Decl, journal: &mut Items<Found>) -> Result<(), NoMemory>
    ensures { OnOk result (journal.new ≡ decl_look known.now one.now journal.old) }
{
    journal.push(Found::Anew)?;
    list_variables(one.vars.as_slice(), journal)?;
    let names = variables(known, one.vars.as_slice())?;
    report_twice(known, names.as_slice(), journal)?;
    body(known, &one.body, journal)
}

/// What the declarations of one item use.
pub fn declarations(
    known: &Known,
    list: &[Decl],
    journal: &mut Items<Found>,
) -> Result<(), NoMemory>
    ensures { OnOk result (journal.new ≡ each (map (decl_look known.now) list.now) journal.old) }
{
    for one in list {
        declaration(known, one, journal)?;
    }
    Ok(())
}
