//! The steps of items.
ghost use Rattle.std.specs.Prelude.{◌≡◌, IfOk};
ghost use Rattle.ml_typing.specs.Steps.{item_steps};
ghost use Rattle.ml_typing.specs.Typing.{names_of};

use crate::expressions::binds;
use crate::patterns::push;
use ml_tree::{Item, ItemKind, Scoped};
use ml_typing::Step;
use oxml_base::{Items, NoMemory};
use std::alloc::Global;

/// The steps of an item: those of its binds, then its own.
pub fn item_steps(alloc: Global, s: &Scoped, item: &Item) -> Result<Items<Step>, NoMemory>
    ensures { IfOk result (λ steps. steps ≡ item_steps (names_of s.now.refs s.now.types item.now.id) item.now) }
{
    let mut steps = Items::new(alloc);
    match &item.kind {
        ItemKind::Types(_) => {
            push(&mut steps, item.span, Some(item.id), Items::new(alloc))?;
            Ok(steps)
        }
        ItemKind::Let {
            recursive: _,
            binds: list,
        } => {
            binds(alloc, s, item.id, list.as_slice(), &mut steps)?;
            push(&mut steps, item.span, Some(item.id), Items::new(alloc))?;
            Ok(steps)
        }
    }
}
