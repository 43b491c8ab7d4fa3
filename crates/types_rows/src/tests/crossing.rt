//! The axes that the type of a bound value crosses.

use super::inferring::inferred;
use ml_tree::{Item, ItemKind};
use std::alloc::Global;
use std::test::Fail;

/// Each source, and the axes that the type of its last item's first bound value crosses: locality,
/// uniqueness and affinity.
const CASES: [(&str, (bool, bool, bool)); 19] = [
    ("let x = 1", (true, true, true)),
    ("let x = 'a'", (true, true, true)),
    ("let x = true", (true, true, true)),
    ("let x = ()", (true, true, true)),
    ("let x = \"a\"", (false, true, true)),
    ("let x = 1 + 2", (true, true, true)),
    ("type t = A | B let x = A", (true, true, true)),
    ("type 'a t = A | B let x = A", (true, true, true)),
    ("type t = A | B of int let x = A", (false, false, false)),
    ("type t = int let x = (1 : t)", (true, true, true)),
    ("type t = string let x : t = \"a\"", (false, true, true)),
    ("type r = {a : int} let x = {a = 1}", (false, false, false)),
    ("let x = []", (false, false, false)),
    ("let x = None", (false, false, false)),
    ("let x = (1, 2)", (false, false, false)),
    ("let x = print_int", (false, false, false)),
    ("let x = exit 1", (false, false, false)),
    ("let id x = x let x = id 1", (true, true, true)),
    ("type int = A of char let x = A 'a'", (false, false, false)),
];

/// The number of the first bound value of an item.
fn first_value(item: &Item) -> Option<u32> {
    match &item.kind {
        ItemKind::Let {
            recursive: _,
            binds,
        } => match binds.as_slice().first() {
            Some(bind) => Some(bind.body.id),
            None => None,
        },
        ItemKind::Types(_) => None,
    }
}

/// The axes that a source's last item's first bound value crosses.
fn crossed(alloc: Global, file: &str) -> Result<(bool, bool, bool), Fail> {
    let of = inferred(alloc, file)?;
    let Ok(typed) = &of.answer else {
        return Err("no types")?;
    };
    let Some(item) = of.scoped.program().items.as_slice().last() else {
        return Err("no items")?;
    };
    let Some(node) = first_value(item) else {
        return Err("no bound value")?;
    };
    let cross = typed.crosses(&of.decls, node);
    Ok((cross.loc, cross.uni, cross.aff))
}

#[test]
fn axes(rt: HostRuntime) -> Result<(), Fail> {
    for (file, expected) in CASES {
        let found = crossed(rt.alloc(), file)?;
        assert_eq!(rt; found, expected, "at {file:?}");
    }
    Ok(())
}
