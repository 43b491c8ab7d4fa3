//! Numbers on a small program and on a deep one.

use crate::number;
use ml_tree::{
    Arg, BinOp, Bind, Decl, DeclBody, Expr, ExprKind, Item, ItemKind, Param, Pat, PatKind, Program,
    TyExpr, TyKind, Words,
};
use oxml_base::{Items, NoMemory, Span};
use sqlite_items::Boxed;
use std::alloc::{AllocError, Global};
use std::fmt::Write;
use std::test::Fail;

const NOWHERE: Span = Span { start: 0, end: 0 };

const NO_WORDS: Words = Words {
    loc: None,
    uni: None,
    aff: None,
};

fn expr(kind: ExprKind) -> Expr {
    Expr {
        id: 0,
        span: NOWHERE,
        kind,
    }
}

fn name_pattern() -> Pat {
    Pat {
        id: 0,
        span: NOWHERE,
        kind: PatKind::Name(NO_WORDS, NOWHERE),
    }
}

fn int_type(alloc: Global) -> Result<Boxed<Arg>, AllocError> {
    let ty = TyExpr {
        id: 0,
        span: NOWHERE,
        kind: TyKind::Con {
            name: NOWHERE,
            args: Items::new(alloc),
        },
    };
    Boxed::new(
        alloc,
        Arg {
            words: NO_WORDS,
            ty,
        },
    )
}

fn binding(alloc: Global, params: Items<Param>, body: Expr) -> Result<Item, AllocError> {
    let mut binds = Items::new(alloc);
    binds.push(Bind {
        pat: name_pattern(),
        params,
        result: None,
        body,
    })?;
    Ok(Item {
        id: 0,
        span: NOWHERE,
        kind: ItemKind::Let {
            recursive: false,
            binds,
        },
    })
}

/// `let f x = x + 1`
fn successor(alloc: Global) -> Result<Item, AllocError> {
    let x = Boxed::new(alloc, expr(ExprKind::Name(NOWHERE)))?;
    let one = Boxed::new(alloc, expr(ExprKind::Int(1)))?;
    let mut params = Items::new(alloc);
    params.push(Param {
        words: NO_WORDS,
        pat: name_pattern(),
    })?;
    binding(alloc, params, expr(ExprKind::Binary(BinOp::Add, x, one)))
}

/// `type t = int -> int`
fn arrow(alloc: Global) -> Result<Item, AllocError> {
    let ty = TyExpr {
        id: 0,
        span: NOWHERE,
        kind: TyKind::Arrow {
            from: int_type(alloc)?,
            to: int_type(alloc)?,
        },
    };
    let mut decls = Items::new(alloc);
    decls.push(Decl {
        name: NOWHERE,
        vars: Items::new(alloc),
        body: DeclBody::Alias(ty),
    })?;
    Ok(Item {
        id: 0,
        span: NOWHERE,
        kind: ItemKind::Types(decls),
    })
}

fn show_expr(out: &mut String, e: &Expr) -> Result<(), AllocError> {
    let id = e.id;
    write!(out, "expr {id}; ")?;
    if let ExprKind::Binary(_, one, other) = &e.kind {
        let left = one.get().id;
        let right = other.get().id;
        write!(out, "expr {left}; expr {right}; ")?;
    }
    Ok(())
}

fn show_item(out: &mut String, item: &Item) -> Result<(), AllocError> {
    let id = item.id;
    write!(out, "item {id}; ")?;
    match &item.kind {
        ItemKind::Let {
            recursive: _,
            binds,
        } => {
            for bind in binds.as_slice() {
                let id = bind.pat.id;
                write!(out, "pat {id}; ")?;
                for param in bind.params.as_slice() {
                    let id = param.pat.id;
                    write!(out, "param {id}; ")?;
                }
                show_expr(out, &bind.body)?;
            }
        }
        ItemKind::Types(decls) => {
            for decl in decls.as_slice() {
                if let DeclBody::Alias(ty) = &decl.body {
                    let id = ty.id;
                    write!(out, "type {id}; ")?;
                    if let TyKind::Arrow { from, to } = &ty.kind {
                        let one = from.get().ty.id;
                        let other = to.get().ty.id;
                        write!(out, "type {one}; type {other}; ")?;
                    }
                }
            }
        }
    }
    Ok(())
}

fn shown(alloc: Global, program: &Program) -> Result<String, AllocError> {
    let mut out = String::new(alloc);
    for item in program.items.as_slice() {
        show_item(&mut out, item)?;
    }
    let nodes = program.nodes;
    let types = program.types;
    write!(out, "{nodes} nodes, {types} types")?;
    Ok(out)
}

fn small(alloc: Global) -> Result<String, AllocError> {
    let mut items = Items::new(alloc);
    items.push(successor(alloc)?)?;
    items.push(arrow(alloc)?)?;
    match number(alloc, items.as_slice()) {
        Ok(program) => shown(alloc, &program),
        Err(NoMemory) => String::from_str(alloc, "no memory"),
    }
}

#[test]
fn in_the_order_of_the_source(rt: HostRuntime) -> Result<(), Fail> {
    let found = small(rt.alloc())?;
    assert_eq!(rt;
        found.as_str(),
        "item 0; pat 1; param 2; expr 3; expr 4; expr 5; item 6; type 0; type 1; type 2; 7 nodes, 3 types"
    );
    Ok(())
}

/// A number in 999 pairs of parentheses.
fn deep(alloc: Global) -> Result<Expr, AllocError> {
    let mut e = expr(ExprKind::Int(0));
    for _ in 0..999 {
        e = expr(ExprKind::Paren(Boxed::new(alloc, e)?));
    }
    Ok(e)
}

#[test]
fn a_deep_tree(rt: HostRuntime) -> Result<(), Fail> {
    let alloc = rt.alloc();
    let e = deep(alloc)?;
    let mut items = Items::new(alloc);
    items.push(binding(alloc, Items::new(alloc), e)?)?;
    let Ok(program) = number(alloc, items.as_slice()) else {
        panic!(rt; "no memory");
    };
    assert_eq!(rt; program.nodes, 1002);
    assert_eq!(rt; program.types, 0);
    Ok(())
}
