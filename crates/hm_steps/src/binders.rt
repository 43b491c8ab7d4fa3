//! The names that an item binds.
ghost use Rattle.std.specs.Prelude.{◌≡◌, ◌++◌, map, OnOk, IfOk};
ghost use Rattle.ml_typing.specs.Steps.{binders, bind_binders, kind_names, joined};
ghost use Rattle.std.specs.Option.{option_map};
ghost use Rattle.hm_steps.specs.Blocks.{binders_of_field, binders_of_any};

use ml_tree::{Bind, FieldPat, Item, ItemKind, Pat, PatKind};
use oxml_base::{Items, NoMemory};
use sqlite_items::Boxed;
use std::alloc::Global;

/// The numbers of the nodes of an item that bind its names.
pub fn item_binders(alloc: Global, item: &Item) -> Result<Items<u32>, NoMemory>
    ensures { IfOk result (λ ns. ns ≡ kind_names item.now.kind) }
{
    match &item.kind {
        ItemKind::Types(_) => Ok(Items::new(alloc)),
        ItemKind::Let {
            recursive: _,
            binds,
        } => all_binders(alloc, binds.as_slice()),
    }
}

fn all_binders(alloc: Global, list: &[Bind]) -> Result<Items<u32>, NoMemory>
    ensures { IfOk result (λ ns. ns ≡ bind_binders list.now) }
{
    let mut numbers = Items::new(alloc);
    for bind in list {
        binders(&bind.pat, &mut numbers)?;
    }
    Ok(numbers)
}

/// Appends the numbers of the nodes of a pattern that bind a name.
#[cycle(binders)]
fn binders(q: &Pat, numbers: &mut Items<u32>) -> Result<(), NoMemory>
    ensures { OnOk result (numbers.new ≡ numbers.old ++ binders q.now) }
{
    match &q.kind {
        PatKind::Name(_, _) => {
            numbers.push(q.id)?;
            Ok(())
        }
        PatKind::Con { name: _, arg } => {
            argument_binders(arg, numbers)?;
            Ok(())
        }
        PatKind::Cons(first, second) => {
            binders(first.get(), numbers)?;
            binders(second.get(), numbers)?;
            Ok(())
        }
        PatKind::Or(first, second) => {
            binders(first.get(), numbers)?;
            binders(second.get(), numbers)?;
            Ok(())
        }
        PatKind::Tuple(list) => {
            part_binders(list.as_slice(), numbers)?;
            Ok(())
        }
        PatKind::List(list) => {
            part_binders(list.as_slice(), numbers)?;
            Ok(())
        }
        PatKind::Fields { list, rest: _ } => {
            field_binders(list.as_slice(), numbers)?;
            Ok(())
        }
        PatKind::Named(inner, _) => {
            numbers.push(q.id)?;
            binders(inner.get(), numbers)?;
            Ok(())
        }
        PatKind::Typed(inner, _) => {
            binders(inner.get(), numbers)?;
            Ok(())
        }
        PatKind::Paren(inner) => {
            binders(inner.get(), numbers)?;
            Ok(())
        }
        PatKind::Any => Ok(()),
        PatKind::Int(_) => Ok(()),
        PatKind::Char(_) => Ok(()),
        PatKind::Text(_) => Ok(()),
    }
}

#[cycle(binders)]
fn argument_binders(arg: &Option<Boxed<Pat>>, numbers: &mut Items<u32>) -> Result<(), NoMemory>
    ensures { OnOk result (numbers.new ≡ numbers.old ++ binders_of_any (option_map binders arg.now)) }
{
    match arg {
        Some(inner) => {
            binders(inner.get(), numbers)?;
            Ok(())
        }
        None => Ok(()),
    }
}

#[cycle(binders)]
fn part_binders(list: &[Pat], numbers: &mut Items<u32>) -> Result<(), NoMemory>
    ensures { OnOk result (numbers.new ≡ numbers.old ++ joined (map binders list.now)) }
{
    for q in list {
        binders(q, numbers)?;
    }
    Ok(())
}

#[cycle(binders)]
fn field_binders(list: &[FieldPat], numbers: &mut Items<u32>) -> Result<(), NoMemory>
    ensures { OnOk result (numbers.new ≡ numbers.old ++ joined (map binders_of_field list.now)) }
{
    for field in list {
        binders(&field.pat, numbers)?;
    }
    Ok(())
}
