ghost use Rattle.std.specs.Prelude.{◌≡◌, map, IfOk};
ghost use Rattle.ml_numbers.specs.Bare.{bare};
ghost use Rattle.ml_numbers.specs.Ids.{IsNumbered};
ghost use Rattle.ml_numbers.specs.Steps.{each};
ghost use Rattle.ml_numbers.specs.Numbered.{numbered_item_kind, numbered_item, numbered};

use crate::expr::number_binds;
use crate::next::{Next, node_number};
use crate::types::number_decls;
use ml_tree::{Item, ItemKind, Program};
use oxml_base::{Items, NoMemory};
use std::alloc::Global;

fn number_item_kind(alloc: Global, kind: &ItemKind, next: &mut Next) -> Result<ItemKind, NoMemory>
    ensures { IfOk result (λ out. numbered_item_kind kind.now next.old ≡ (out, next.new)) }
{
    match kind {
        ItemKind::Types(decls) => Ok(ItemKind::Types(number_decls(alloc, decls.as_slice(), next)?)),
        ItemKind::Let { recursive, binds } => {
            let binds = number_binds(alloc, binds.as_slice(), next)?;
            Ok(ItemKind::Let {
                recursive: *recursive,
                binds,
            })
        }
    }
}

fn number_item(alloc: Global, item: &Item, next: &mut Next) -> Result<Item, NoMemory>
    ensures { IfOk result (λ out. numbered_item item.now next.old ≡ (out, next.new)) }
{
    let id = node_number(next)?;
    let kind = number_item_kind(alloc, &item.kind, next)?;
    Ok(Item {
        id,
        span: item.span,
        kind,
    })
}

fn number_items(alloc: Global, list: &[Item], next: &mut Next) -> Result<Items<Item>, NoMemory>
    ensures { IfOk result (λ out. each (map numbered_item list.now) next.old ≡ (out, next.new)) }
{
    let mut done = Items::new(alloc);
    for one in list {
        done.push(number_item(alloc, one, next)?)?;
    }
    Ok(done)
}

/// The program of these items, with the numbers of its nodes (items, patterns, expressions and the
/// fields of records) and of its type expressions.
///
/// Each are numbered from 0 on in the order of the source, a node before its parts; the numbers that
/// stand in the items do not matter. `NoMemory` where memory runs out, or the 32 bits of a number.
pub fn number(alloc: Global, items: &[Item]) -> Result<Program, NoMemory>
    ensures is { IfOk result (λ program. program ≡ numbered items.now) }
    ensures counts_up { IfOk result IsNumbered }
    ensures stays { IfOk result (λ program. bare program.items ≡ bare items.now) }
{
    let mut next = Next { nodes: 0, types: 0 };
    let items = number_items(alloc, items, &mut next)?;
    Ok(Program {
        items,
        nodes: next.nodes,
        types: next.types,
    })
}
