//! A small program, whose lists were made by hand.
use crate::{Mention, annotations, outlines};
use ml_tree::{
    Arg, Bind, ConDecl, Decl, DeclBody, Expr, ExprKind, Item, ItemKind, Pat, PatKind, TyExpr,
    TyKind, Words,
};
use oxml_base::{Items, NoMemory, Span};
use sqlite_items::Boxed;
use std::alloc::Global;
use std::test::Fail;

fn span(start: u32, end: u32) -> Span {
    Span { start, end }
}

/// Where the type expression of this number stands.
fn place(id: u32) -> Span {
    span(id, id.saturating_add(1))
}

const NO_WORDS: Words = Words {
    loc: None,
    uni: None,
    aff: None,
};

/// `'a`
fn variable(id: u32) -> TyExpr {
    TyExpr {
        id,
        span: place(id),
        kind: TyKind::Var(place(id)),
    }
}

/// A name behind these arguments.
fn named(id: u32, args: Items<TyExpr>) -> TyExpr {
    TyExpr {
        id,
        span: place(id),
        kind: TyKind::Con {
            name: place(id),
            args,
        },
    }
}

fn arg(ty: TyExpr) -> Arg {
    Arg {
        words: NO_WORDS,
        ty,
    }
}

/// `type 'a t = A of ('a -> 'a list)`
fn declaration(alloc: Global) -> Result<Decl, NoMemory> {
    let mut list = Items::new(alloc);
    list.push(variable(3))?;
    let arrow = TyExpr {
        id: 0,
        span: span(0, 9),
        kind: TyKind::Arrow {
            from: Boxed::new(alloc, arg(variable(1)))?,
            to: Boxed::new(alloc, arg(named(2, list)))?,
        },
    };
    let mut args = Items::new(alloc);
    args.push(arg(arrow))?;
    let mut cons = Items::new(alloc);
    cons.push(ConDecl {
        name: span(20, 21),
        args,
    })?;
    Ok(Decl {
        name: span(10, 11),
        vars: Items::from_slice(alloc, &[span(5, 7)])?,
        body: DeclBody::Variant(cons),
    })
}

fn item(kind: ItemKind) -> Item {
    Item {
        id: 0,
        span: span(0, 0),
        kind,
    }
}

/// The number of a type expression, and how many arguments it has; 9 for a variable.
fn digits(alloc: Global, list: &[Mention]) -> Result<Vec<(u32, usize)>, NoMemory> {
    let mut digits = Vec::new(alloc);
    for one in list {
        match *one {
            Mention::Named {
                id,
                whole: _,
                arguments,
            } => digits.push((id, arguments))?,
            Mention::Variable { id, place: _ } => digits.push((id, 9))?,
        }
    }
    Ok(digits)
}

#[test]
fn one_declaration(rt: HostRuntime) -> Result<(), Fail> {
    let alloc = rt.alloc();
    let mut decls = Items::new(alloc);
    decls.push(declaration(alloc)?)?;
    let mut items = Items::new(alloc);
    items.push(item(ItemKind::Types(decls)))?;
    let made = outlines(alloc, items.as_slice())?;
    assert_eq!(rt; made.len(), 1);
    let one = made.get(0).expect(&rt, "t");
    assert_eq!(rt; one.variables, 1);
    assert!(rt; !one.is_abbreviation, "a variant");
    assert_eq!(rt; one.constructors.as_slice(), [span(20, 21)].as_slice());
    let found = digits(alloc, one.mentions.as_slice())?;
    assert_eq!(rt; found.as_slice(), [(1, 9), (2, 1), (3, 9)].as_slice());
    assert_eq!(rt; annotations(alloc, items.as_slice())?.len(), 0);
    Ok(())
}

/// `let (x : int) : 'a = (1 : char)`
fn binding(alloc: Global) -> Result<Bind, NoMemory> {
    let pat = Pat {
        id: 2,
        span: span(5, 6),
        kind: PatKind::Name(NO_WORDS, span(5, 6)),
    };
    let body = Expr {
        id: 4,
        span: span(22, 23),
        kind: ExprKind::Int(1),
    };
    Ok(Bind {
        pat: Pat {
            id: 1,
            span: span(4, 13),
            kind: PatKind::Typed(Boxed::new(alloc, pat)?, named(0, Items::new(alloc))),
        },
        params: Items::new(alloc),
        result: Some(variable(1)),
        body: Expr {
            id: 3,
            span: span(21, 31),
            kind: ExprKind::Typed(Boxed::new(alloc, body)?, named(2, Items::new(alloc))),
        },
    })
}

#[test]
fn written_types(rt: HostRuntime) -> Result<(), Fail> {
    let alloc = rt.alloc();
    let mut binds = Items::new(alloc);
    binds.push(binding(alloc)?)?;
    let mut items = Items::new(alloc);
    items.push(item(ItemKind::Let {
        recursive: false,
        binds,
    }))?;
    let list = annotations(alloc, items.as_slice())?;
    let found = digits(alloc, list.as_slice())?;
    assert_eq!(rt; found.as_slice(), [(0, 0), (1, 9), (2, 0)].as_slice());
    assert_eq!(rt; outlines(alloc, items.as_slice())?.len(), 0);
    Ok(())
}
