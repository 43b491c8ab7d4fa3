//! Small programs, whose references and first offences were worked out by hand.
ghost use Rattle.std.specs.Prelude.{◌≡◌};
ghost use Rattle.std.specs.List.{range_with_len};
ghost use Rattle.ml_tree.specs.Nodes.{expr_nodes};
ghost use Rattle.ml_numbers.specs.Ids.{expr_ids};

use crate::{ScopeErr, free_names, resolve};
use ml_numbers::number;
use ml_tree::{Bind, Expr, ExprKind, Item, ItemKind, Param, Pat, PatKind, Ref, Scoped, Words};
use oxml_base::{Items, NoMemory, Rule, Span};
use std::alloc::Global;
use std::test::Fail;

const NO_WORDS: Words = Words {
    loc: None,
    uni: None,
    aff: None,
};

fn span(start: u32, end: u32) -> Span {
    Span { start, end }
}

/// A pattern that is a name.
fn binder(place: Span) -> Pat {
    Pat {
        id: 0,
        span: place,
        kind: PatKind::Name(NO_WORDS, place),
    }
}

/// The use of a name.
fn use_of(id: u32, place: Span) -> Expr
    ensures id { result.id ≡ id }
    ensures nodes { expr_nodes result ≡ 1 }
    ensures in_order { (expr_ids result).nodes ≡ range_with_len result.id (expr_nodes result) }
{
    Expr {
        id,
        span: place,
        kind: ExprKind::Name(place),
    }
}

/// One item that binds a function of one parameter to the use of a name.
fn function(alloc: Global, body: Span) -> Result<Items<Item>, NoMemory> {
    let mut params = Items::new(alloc);
    params.push(Param {
        words: NO_WORDS,
        pat: binder(span(6, 7)),
    })?;
    let mut binds = Items::new(alloc);
    binds.push(Bind {
        pat: binder(span(4, 5)),
        params,
        result: None,
        body: use_of(0, body),
    })?;
    let mut items = Items::new(alloc);
    items.push(Item {
        id: 0,
        span: span(0, 11),
        kind: ItemKind::Let {
            recursive: false,
            binds,
        },
    })?;
    Ok(items)
}

fn answer(alloc: Global, text: &str, body: Span) -> Result<Scoped, ScopeErr> {
    let Ok(items) = function(alloc, body) else {
        return Err(ScopeErr::NoMemory)
    };
    match number(alloc, items.as_slice()) {
        Ok(program) => resolve(alloc, text.as_bytes(), program),
        Err(_) => Err(ScopeErr::NoMemory),
    }
}

#[test]
fn nearest_binder(rt: HostRuntime) -> Result<(), Fail> {
    // The nodes: the item 0, `f` 1, the parameter 2, the body 3.
    let scoped = answer(rt.alloc(), "let f x = x", span(10, 11));
    let found = scoped.is_ok_and(|s| s.target(3) == Some(Ref::Local(2)));
    assert!(rt; found, "the parameter");
    Ok(())
}

#[test]
fn unbound(rt: HostRuntime) -> Result<(), Fail> {
    match answer(rt.alloc(), "let f x = y", span(10, 11)) {
        Err(ScopeErr::Refused(refusal)) => {
            assert_eq!(rt; refusal.rule, Rule::UnboundValue);
            assert_eq!(rt; refusal.span, span(10, 11));
        }
        _ => assert!(rt; false, "rule 20"),
    }
    Ok(())
}

#[test]
fn free(rt: HostRuntime) -> Result<(), Fail> {
    match answer(rt.alloc(), "let f x = x", span(10, 11)) {
        Ok(scoped) => {
            let body = use_of(3, span(10, 11));
            let names = free_names(rt.alloc(), &scoped, &body)?;
            assert_eq!(rt; names.as_slice(), [2].as_slice());
        }
        Err(_) => assert!(rt; false, "resolved"),
    }
    Ok(())
}
