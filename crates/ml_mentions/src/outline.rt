//! What the declarations of a program say to the rules.
ghost use Rattle.std.specs.Prelude.{◌≡◌, ◌++◌, map, IfOk, OnOk};
ghost use Rattle.ml_tree.specs.declared.types.ConDecl.{ConDecl};
ghost use Rattle.ml_tree.specs.declared.types.FieldDecl.{FieldDecl};
ghost use Rattle.ml_mentions.specs.Lists.{all};
ghost use Rattle.ml_mentions.specs.Mentions.{arg_mentions};
ghost use Rattle.ml_mentions.specs.Programs.{kind_declarations, declarations, body_constructors, body_fields, body_mentions, con_mentions, field_mentions, abbreviates, outline};

use crate::mentions::{Mention, push_arg, push_mentions};
use ml_tree::{Arg, ConDecl, Decl, DeclBody, FieldDecl, Item, ItemKind};
use oxml_base::{Items, NoMemory, Span};
use std::alloc::Global;

/// A declaration without the shapes of its types.
#[derive(Drop)]
pub struct Outline {
    pub name: Span,
    /// How many variables it lists.
    pub variables: usize,
    pub is_abbreviation: bool,
    /// The names and variables of its types.
    pub mentions: Items<Mention>,
    pub constructors: Items<Span>,
    pub fields: Items<Span>,
}

/// The declarations of an item.
pub fn item_declarations(kind: &ItemKind) -> &[Decl]
    ensures { result.now ≡ kind_declarations kind.now }
{
    match kind {
        ItemKind::Types(list) => list.as_slice(),
        ItemKind::Let {
            recursive: _,
            binds: _,
        } => &[],
    }
}

fn is_abbreviation(body: &DeclBody) -> bool
    ensures { result ≡ abbreviates body.now }
{
    match body {
        DeclBody::Variant(_) => false,
        DeclBody::Fields(_) => false,
        DeclBody::Alias(_) => true,
    }
}

// ---- the names and variables of its types

fn push_args(args: &[Arg], list: &mut Items<Mention>) -> Result<(), NoMemory>
    ensures { OnOk result (list.new ≡ list.old ++ all (map arg_mentions args.now)) }
{
    for one in args {
        push_arg(one, list)?;
    }
    Ok(())
}

fn push_cons(cons: &[ConDecl], list: &mut Items<Mention>) -> Result<(), NoMemory>
    ensures { OnOk result (list.new ≡ list.old ++ all (map con_mentions cons.now)) }
{
    for one in cons {
        push_args(one.args.as_slice(), list)?;
    }
    Ok(())
}

fn push_fields(fields: &[FieldDecl], list: &mut Items<Mention>) -> Result<(), NoMemory>
    ensures { OnOk result (list.new ≡ list.old ++ all (map field_mentions fields.now)) }
{
    for one in fields {
        push_arg(&one.arg, list)?;
    }
    Ok(())
}

fn push_body(body: &DeclBody, list: &mut Items<Mention>) -> Result<(), NoMemory>
    ensures { OnOk result (list.new ≡ list.old ++ body_mentions body.now) }
{
    match body {
        DeclBody::Variant(cons) => push_cons(cons.as_slice(), list),
        DeclBody::Fields(fields) => push_fields(fields.as_slice(), list),
        DeclBody::Alias(ty) => push_mentions(ty, list),
    }
}

fn mentions_of(alloc: Global, body: &DeclBody) -> Result<Items<Mention>, NoMemory>
    ensures { IfOk result (λ list. list ≡ body_mentions body.now) }
{
    let mut list = Items::new(alloc);
    push_body(body, &mut list)?;
    Ok(list)
}

// ---- the names of its parts

fn con_names(alloc: Global, cons: &[ConDecl]) -> Result<Items<Span>, NoMemory>
    ensures { IfOk result (λ names. names ≡ map (λ (c : ConDecl). c.name) cons.now) }
{
    let mut names = Items::new(alloc);
    for one in cons {
        names.push(one.name)?;
    }
    Ok(names)
}

fn field_names(alloc: Global, fields: &[FieldDecl]) -> Result<Items<Span>, NoMemory>
    ensures { IfOk result (λ names. names ≡ map (λ (f : FieldDecl). f.name) fields.now) }
{
    let mut names = Items::new(alloc);
    for one in fields {
        names.push(one.name)?;
    }
    Ok(names)
}

fn constructors_of(alloc: Global, body: &DeclBody) -> Result<Items<Span>, NoMemory>
    ensures { IfOk result (λ names. names ≡ body_constructors body.now) }
{
    match body {
        DeclBody::Variant(cons) => con_names(alloc, cons.as_slice()),
        DeclBody::Fields(_) => Ok(Items::new(alloc)),
        DeclBody::Alias(_) => Ok(Items::new(alloc)),
    }
}

fn fields_of(alloc: Global, body: &DeclBody) -> Result<Items<Span>, NoMemory>
    ensures { IfOk result (λ names. names ≡ body_fields body.now) }
{
    match body {
        DeclBody::Variant(_) => Ok(Items::new(alloc)),
        DeclBody::Fields(fields) => field_names(alloc, fields.as_slice()),
        DeclBody::Alias(_) => Ok(Items::new(alloc)),
    }
}

// ---- the whole

fn outline_of(alloc: Global, one: &Decl) -> Result<Outline, NoMemory>
    ensures { IfOk result (λ made. made ≡ outline one.now) }
{
    let mentions = mentions_of(alloc, &one.body)?;
    let constructors = constructors_of(alloc, &one.body)?;
    let fields = fields_of(alloc, &one.body)?;
    Ok(Outline {
        name: one.name,
        variables: one.vars.len(),
        is_abbreviation: is_abbreviation(&one.body),
        mentions,
        constructors,
        fields,
    })
}

fn push_outlines(alloc: Global, list: &[Decl], made: &mut Items<Outline>) -> Result<(), NoMemory>
    ensures { OnOk result (made.new ≡ made.old ++ map outline list.now) }
{
    for one in list {
        made.push(outline_of(alloc, one)?)?;
    }
    Ok(())
}

/// What the declarations of these items say, in the order of the source.
pub fn outlines(alloc: Global, items: &[Item]) -> Result<Items<Outline>, NoMemory>
    ensures { IfOk result (λ made. made ≡ map outline (declarations items.now)) }
{
    let mut made = Items::new(alloc);
    for item in items {
        push_outlines(alloc, item_declarations(&item.kind), &mut made)?;
    }
    Ok(made)
}
