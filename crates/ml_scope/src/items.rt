//! The items of a program.
ghost use Rattle.std.specs.Prelude.{◌≡◌, map, IfOk, OnOk};
ghost use Rattle.ml_scope.specs.Journal.{each};
ghost use Rattle.ml_scope.specs.Items.{types_item, let_item, kind_item, item_look, program_look};

use crate::declarations::{declarations, declare_constructors, declare_fields, declare_types};
use crate::expressions::group;
use crate::found::Found;
use crate::world::World;
use ml_tree::{Bind, Decl, Item, ItemKind};
use oxml_base::NoMemory;
use std::alloc::Global;

/// An item of declarations, which see each other.
fn types_item(world: &mut World, list: &[Decl]) -> Result<(), NoMemory>
    ensures { OnOk result (world.new ≡ types_item list.now world.old) }
{
    let text = world.known.text;
    let next = declare_types(text, world.next, list, &mut world.known.types)?;
    declarations(&world.known, list, &mut world.journal)?;
    declare_constructors(text, world.next, list, &mut world.known.constructors)?;
    declare_fields(text, world.next, list, &mut world.known.fields)?;
    world.next = next;
    Ok(())
}

/// An item that binds names.
fn let_item(world: &mut World, recursive: bool, binds: &[Bind]) -> Result<(), NoMemory>
    ensures { OnOk result (world.new ≡ let_item recursive binds.now world.old) }
{
    world.journal.push(Found::Anew)?;
    group(
        &world.known,
        true,
        recursive,
        binds,
        &mut world.values,
        &mut world.journal,
    )
}

fn item(world: &mut World, one: &Item) -> Result<(), NoMemory>
    ensures { OnOk result (world.new ≡ item_look one.now world.old) }
{
    match &one.kind {
        ItemKind::Types(list) => types_item(world, list.as_slice()),
        ItemKind::Let { recursive, binds } => let_item(world, *recursive, binds.as_slice()),
    }
}

/// What the items of a program use and declare.
pub fn program<'a>(alloc: Global, text: &'a [u8], items: &[Item]) -> Result<World<'a>, NoMemory>
    ensures { IfOk result (λ w. w ≡ program_look text.now items.now) }
{
    let mut world = World::start(alloc, text)?;
    for one in items {
        item(&mut world, one)?;
    }
    Ok(world)
}
