//! Small programs, whose declarations and first violations were worked out by hand.
ghost use Rattle.std.specs.Prelude.{IfOk};
ghost use Rattle.ml_tree.specs.Rising.{Rises};

use crate::{DeclErr, check_decls};
use ml_tree::{
    Arg, ConName, Decl, DeclBody, Item, ItemKind, Program, Scoped, TyExpr, TyKind, TyRef, Words,
};
use ml_types::{TyId, TyNode};
use oxml_base::{Items, NoMemory, Refusal, Rule, Span};
use sqlite_items::Boxed;
use std::alloc::Global;
use std::test::Fail;

const NO_WORDS: Words = Words {
    loc: None,
    uni: None,
    aff: None,
};

fn span(start: u32, end: u32) -> Span {
    Span { start, end }
}

/// A name without arguments, of the number 0.
fn name(alloc: Global, place: Span) -> TyExpr {
    TyExpr {
        id: 0,
        span: place,
        kind: TyKind::Con {
            name: place,
            args: Items::new(alloc),
        },
    }
}

fn plain(ty: TyExpr) -> Arg {
    Arg {
        words: NO_WORDS,
        ty,
    }
}

fn arrow(alloc: Global, whole: Span, from: TyExpr, to: TyExpr) -> Result<TyExpr, NoMemory> {
    Ok(TyExpr {
        id: 1,
        span: whole,
        kind: TyKind::Arrow {
            from: Boxed::new(alloc, plain(from))?,
            to: Boxed::new(alloc, plain(to))?,
        },
    })
}

/// The list in which the type expression 0 names this.
#[tactic(auto, using(crate::proofs::Finds::rises_one))]
fn naming(alloc: Global, target: TyRef) -> Result<Items<(u32, TyRef)>, NoMemory>
    ensures { IfOk result Rises }
{
    let mut types = Items::new(alloc);
    types.push((0, target))?;
    Ok(types)
}

/// The program of one item of these declarations, in which the type expression 0 names this.
fn declaring(alloc: Global, list: Items<Decl>, target: TyRef) -> Result<Scoped, NoMemory> {
    let types = naming(alloc, target)?;
    let mut items = Items::new(alloc);
    items.push(Item {
        id: 0,
        span: span(0, 0),
        kind: ItemKind::Types(list),
    })?;
    let program = Program {
        items,
        nodes: 1,
        types: 1,
    };
    Ok(Scoped::new(program, Items::new(alloc), types))
}

/// The same of one abbreviation.
fn abbreviating(alloc: Global, ty: TyExpr, target: TyRef) -> Result<Scoped, NoMemory> {
    let mut list = Items::new(alloc);
    list.push(Decl {
        name: span(5, 6),
        vars: Items::new(alloc),
        body: DeclBody::Alias(ty),
    })?;
    declaring(alloc, list, target)
}

#[test]
fn argument_left_out(rt: HostRuntime) -> Result<(), Fail> {
    let alloc = rt.alloc();
    let s = abbreviating(alloc, name(alloc, span(9, 13)), TyRef::Decl(5))?;
    match check_decls(alloc, b"type u = list", &s) {
        Err(DeclErr::Refused(refusal)) => {
            let rule = Rule::ArgumentCount;
            let span = span(9, 13);
            assert_eq!(rt; refusal, Refusal { rule, span });
        }
        _ => assert!(rt; false, "rule 30"),
    }
    Ok(())
}

#[test]
fn predefined(rt: HostRuntime) -> Result<(), Fail> {
    let alloc = rt.alloc();
    let s = declaring(alloc, Items::new(alloc), TyRef::Decl(0))?;
    let (decls, table) = check_decls(alloc, b"", &s).map_err(|_| NoMemory)?;
    assert_eq!(rt; decls.types.len(), 7);
    let list = decls.types.get(5).expect(&rt, "list");
    assert_eq!(rt; list.vars, 1);
    assert_eq!(rt; list.cons.get(0).expect(&rt, "nil").name, ConName::Nil);
    let cons = list.cons.get(1).expect(&rt, "cons");
    assert_eq!(rt; cons.args.get(0).expect(&rt, "head").ty, TyId(0));
    assert_eq!(rt; cons.args.get(1).expect(&rt, "tail").ty, TyId(1));
    match table.nodes.get(1) {
        Some(TyNode::Con(5, args)) => assert_eq!(rt; args.as_slice(), [TyId(0)].as_slice()),
        _ => assert!(rt; false, "a list"),
    }
    let truth = decls.types.get(3).expect(&rt, "bool");
    assert_eq!(rt; truth.cons.get(1).expect(&rt, "true").name, ConName::True);
    Ok(())
}

/// `type f = int -> int -> int`
fn two_arrows(alloc: Global) -> Result<Scoped, NoMemory> {
    let second = name(alloc, span(16, 19));
    let third = name(alloc, span(23, 26));
    let inner = arrow(alloc, span(16, 26), second, third)?;
    let outer = arrow(alloc, span(9, 26), name(alloc, span(9, 12)), inner)?;
    abbreviating(alloc, outer, TyRef::Decl(0))
}

#[test]
fn arrows_have_slots(rt: HostRuntime) -> Result<(), Fail> {
    let alloc = rt.alloc();
    let s = two_arrows(alloc)?;
    let text = b"type f = int -> int -> int";
    let (decls, table) = check_decls(alloc, text, &s).map_err(|_| NoMemory)?;
    let info = decls.types.get(7).expect(&rt, "f");
    assert_eq!(rt; info.name, span(5, 6));
    assert_eq!(rt; info.alias, Some(TyId(6)));
    // The inner arrow stands before the outer one.
    match (table.nodes.get(5), table.nodes.get(6)) {
        (
            Some(TyNode::Arrow { slot, from, to }),
            Some(
                TyNode::Arrow {
                    slot: other,
                    from: first,
                    to: rest,
                },
            ),
        ) => {
            assert_eq!(rt; (*slot, *other), (0, 1));
            assert_eq!(rt; (*from, *to), (TyId(3), TyId(4)));
            assert_eq!(rt; (*first, *rest), (TyId(2), TyId(5)));
        }
        _ => assert!(rt; false, "two arrows"),
    }
    Ok(())
}
