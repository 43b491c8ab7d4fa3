//! What the nodes and the type expressions of a file name. Numbers count from the first node and
//! from the first type expression of the file: an item, then its patterns and its expressions, each
//! before its parts.
use crate::reading::Case;
use ml_tree::{Ref, Scoped, TyRef};
use source_reading::{Answer, resolved};
use std::alloc::{AllocError, Global};
use std::fmt::Write;
use std::process::Abort;
use std::test::Fail;

/// `node:t` the binder of an item, `:l` another binder, `:b` a built-in definition by its own
/// number, `:p` an operation, `:c` and `:f` a constructor and a field, `:d` a declaration; `/`
/// begins the type expressions, where `:d` is a declaration and `:v` a variable.
pub const TARGETS: [Case; 20] = [
    ("let x = 1 let y = x", "5:t1 /"),
    ("let f x = x", "3:l2 /"),
    ("let rec f x = f x", "4:t1 5:l2 /"),
    ("let rec f x = g x and g y = f y", "4:t6 5:l2 9:t1 10:l7 /"),
    ("let f x = let x = x in x", "5:l2 6:l4 /"),
    (
        "let f x = let y = 1 and z = x in (y, z)",
        "7:l2 10:l4 11:l6 /",
    ),
    ("let f x = let rec g y = g x in g", "7:l4 8:l2 9:l4 /"),
    (
        "let f x y = let g x = x + y in g x",
        "8:l6 9:l3 11:l5 12:l2 /",
    ),
    ("let f x = fun y -> (x, y)", "7:l2 8:l4 /"),
    ("let f = function x -> x", "4:l3 /"),
    ("let f x = let borrow_ y = x in y", "3:l2 4:l3 /"),
    (
        "let f x = match x with Some _ -> overwrite_ x with Some 1 | _ -> x",
        "4:l2 5:c6.1 7:l2 8:c6.1 11:l2 /",
    ),
    (
        "let a = print_int let exit = exit let b = exit",
        "2:pPrintInt 5:pExit 8:t4 /",
    ),
    (
        "let a = String.length \"a\" let b = String.get",
        "3:pStringLength 7:pStringGet /",
    ),
    (
        "let a = (true, false, (), [], None)",
        "4:c3.1 5:c3.0 6:c4.0 7:c5.0 8:c6.0 /",
    ),
    ("let f a b = a @ b", "5:l2 6:l3 /"),
    ("let f s i = s.[i]", "5:l2 6:l3 /"),
    ("let f x = x :: [x]", "4:l2 6:l2 /"),
    ("let x = 1 let x = x let y = x", "5:t1 8:t4 /"),
    ("let not b = b let a = not true", "3:l2 7:t1 8:c3.1 /"),
];

/// Names that patterns bind.
pub const PATTERN_TARGETS: [Case; 8] = [
    (
        "let f x = match x with Some y when y = 1 -> y | y -> y",
        "4:l2 5:c6.1 8:l6 10:l6 12:l11 /",
    ),
    ("let a, b = 1, 2 let c = b", "9:t3 /"),
    ("let f ((x, y) as z) = (z, x, y)", "9:l2 10:l5 11:l6 /"),
    (
        "type t = A | B of int let f (B x) = A",
        "3:c7.1 5:c7.0 /0:d0",
    ),
    (
        "type r = {a : int} let f ({a}) = a",
        "3:d7 4:f7.0 6:l5 /0:d0",
    ),
    ("type r = {a : int} let f a = {a}", "4:d7 5:f7.0 6:l3 /0:d0"),
    (
        "type r = {a : int; b : char} let f r = {b = r.b; a = 1}",
        "4:d7 5:f7.1 6:f7.1 7:l3 8:f7.0 /0:d0 1:d1",
    ),
    (
        "let f x = function x when x = 1 -> x | [] -> x",
        "6:l4 8:l4 9:c5.0 10:l2 /",
    ),
];

/// Names in types and of declarations.
pub const TYPE_TARGETS: [Case; 8] = [
    (
        "type ('a, 'b) t = A of 'b * 'a and u = (int, u) t",
        "/0:v1 1:v0 2:d7 3:d0 4:d8",
    ),
    (
        "let f (x : 'b) (y : 'a) (z : 'b) : 'a = y let g (x : 'a) = x",
        "8:l5 13:l12 /0:v0 1:v1 2:v0 3:v1 4:v0",
    ),
    (
        "type t = A type u = A let a = A let f (x : t list) = x",
        "4:c8.0 9:l8 /0:d5 1:d7",
    ),
    ("type 'a t = A of 'b * 'a", "/0:v1 1:v0"),
    ("type t = u and u = int", "/0:d8 1:d0"),
    ("type t = int type t = t list", "/0:d0 1:d5 2:d8"),
    ("type t = A and u = A let a = A", "3:c8.0 /"),
    (
        "type r = {a : int} type s = {a : int} let f x = x.a",
        "5:f8.0 6:l4 /0:d0 1:d0",
    ),
];

/// What a value's reference stands for, where the file's numbers begin at `first`.
fn write_ref(out: &mut String, target: Ref, first: u32) -> Result<(), AllocError> {
    match target {
        Ref::Top(node) if node < first => write!(out, "b{node}")?,
        Ref::Top(node) => write!(out, "t{}", node.saturating_sub(first))?,
        Ref::Local(node) => write!(out, "l{}", node.saturating_sub(first))?,
        Ref::Operation(op) => write!(out, "p{op:?}")?,
        Ref::Con(declaration, place) => write!(out, "c{declaration}.{place}")?,
        Ref::Field(declaration, place) => write!(out, "f{declaration}.{place}")?,
        Ref::Decl(declaration) => write!(out, "d{declaration}")?,
    }
    Ok(())
}

/// The references of the nodes from `first` on.
fn write_refs(out: &mut String, scoped: &Scoped, first: u32, end: u32) -> Result<(), AllocError> {
    for node in first..end {
        if let Some(target) = scoped.target(node) {
            write!(out, "{}:", node.saturating_sub(first))?;
            write_ref(out, target, first)?;
            out.push(' ')?;
        }
    }
    Ok(())
}

/// The references of the type expressions.
fn write_types(out: &mut String, scoped: &Scoped, end: u32) -> Result<(), AllocError> {
    for id in 0..end {
        if id > 0 {
            out.push(' ')?;
        }
        match scoped.type_target(id) {
            Some(TyRef::Decl(declaration)) => write!(out, "{id}:d{declaration}")?,
            Some(TyRef::Var(place)) => write!(out, "{id}:v{place}")?,
            None => write!(out, "{id}:")?,
        }
    }
    Ok(())
}

/// The references of a file, in the notation of the tables.
fn targets_of(alloc: Global, scoped: &Scoped) -> Result<String, AllocError> {
    let mut out = String::new(alloc);
    let program = scoped.program();
    // Seven items are built in.
    let first = match program.items.as_slice().get(7) {
        Some(item) => item.id,
        None => program.nodes,
    };
    let end = program.nodes;
    let types = program.types;
    write_refs(&mut out, scoped, first, end)?;
    out.push('/')?;
    write_types(&mut out, scoped, types)?;
    Ok(out)
}

/// Whether the names of a file stand for what is expected.
pub fn check_target(
    rt: &impl Abort,
    alloc: Global,
    file: &str,
    expected: &str,
) -> Result<(), Fail> {
    let Answer::Found(scoped) = resolved(alloc, file.as_bytes())? else {
        return Err("refused")?;
    };
    let found = targets_of(alloc, &scoped)?;
    assert_eq!(rt; found.as_str(), expected, "at {file:?}");
    Ok(())
}

/// Whether the names of each source of a table stand for what is expected.
pub fn check_targets(rt: &impl Abort, alloc: Global, table: &[Case]) -> Result<(), Fail> {
    for (file, expected) in table {
        check_target(rt, alloc, file, expected)?;
    }
    Ok(())
}
