use crate::functions;
use bumpalo::Bump;
use ml_tree::{
    Bind, Expr, ExprKind, Item, ItemKind, Param, Pat, PatKind, Program, Ref, Scoped, Words,
};
use oxml_base::{Items, NoMemory, Span};
use sqlite_items::Boxed;
use std::alloc::Global;
use std::test::Fail;

const NOWHERE: Span = Span { start: 0, end: 0 };

const NO_WORDS: Words = Words {
    loc: None,
    uni: None,
    aff: None,
};

fn name(id: u32) -> Pat {
    Pat {
        id,
        span: NOWHERE,
        kind: PatKind::Name(NO_WORDS, NOWHERE),
    }
}

fn param(alloc: Global, id: u32) -> Result<Items<Param>, NoMemory> {
    let mut params = Items::new(alloc);
    params.push(Param {
        words: NO_WORDS,
        pat: name(id),
    })?;
    Ok(params)
}

/// `let f x = fun y -> x`: the names are 0, 1 and 2, the use is 3, the inner function 4, the item 5.
fn program(alloc: Global) -> Result<Program, NoMemory> {
    let used = Expr {
        id: 3,
        span: NOWHERE,
        kind: ExprKind::Name(NOWHERE),
    };
    let inner = Expr {
        id: 4,
        span: NOWHERE,
        kind: ExprKind::Fun(param(alloc, 2)?, Boxed::new(alloc, used)?),
    };
    let mut binds = Items::new(alloc);
    binds.push(Bind {
        pat: name(0),
        params: param(alloc, 1)?,
        result: None,
        body: inner,
    })?;
    let mut items = Items::new(alloc);
    items.push(Item {
        id: 5,
        span: NOWHERE,
        kind: ItemKind::Let {
            recursive: false,
            binds,
        },
    })?;
    Ok(Program {
        items,
        nodes: 6,
        types: 0,
    })
}

#[test]
fn inner_function(rt: HostRuntime) -> Result<(), Fail> {
    let mut refs = Items::new(rt.alloc());
    refs.push((3, Ref::Local(1)))?;
    let s = Scoped::new(program(rt.alloc())?, refs, Items::new(rt.alloc()));
    let bump = Bump::new(rt.alloc());
    let found = functions(rt.alloc(), &bump, &s)?;
    for (node, captured) in [(0, 0), (4, 1)] {
        let function = found.at(node).ok_or(NoMemory)?;
        assert_eq!(rt; function.arity(), 1, "at {node}");
        assert_eq!(rt; function.weight, 72, "at {node}");
        assert_eq!(rt; function.captures.len(), captured, "at {node}");
    }
    assert!(rt; found.at(3).is_none());
    Ok(())
}
