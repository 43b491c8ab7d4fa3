//! Small types and declarations with their trees, and sources that have none, worked out by hand from the
//! grammar.
//!
//! A tree is written with the bytes of each part: `'0-2` a variable, `t0-8:4-8(..)` a type of the name at
//! 4-8 with its arguments, `*0-9(..)` a product, `>0-9(.., ..)` an arrow. Words stand before their type.

use crate::{Row, read_decls, read_type};
use ml_cursor::ParseErr;
use ml_lexer::{Token, lex};
use ml_tree::{Aff, Arg, ConDecl, Decl, DeclBody, FieldDecl, Loc, TyExpr, TyKind, Uni, Words};
use oxml_base::{Items, Span};
use std::alloc::{AllocError, Global};
use std::fmt::Write;
use std::process::Abort;
use std::test::Fail;

/// A source, and what is read from it.
type Case = (&'static str, &'static str);

const TYPES: [Case; 44] = [
    ("'a", "'0-2"),
    ("int", "t0-3:0-3()"),
    ("int list", "t0-8:4-8(t0-3:0-3())"),
    ("'a list option", "t0-14:8-14(t0-7:3-7('0-2))"),
    ("(int)", "t1-4:1-4()"),
    ("(int) list", "t0-10:6-10(t1-4:1-4())"),
    ("('a, int) pair", "t0-14:10-14('1-3 t5-8:5-8())"),
    (
        "('a, 'b, 'c) t u",
        "t0-16:15-16(t0-14:13-14('1-3 '5-7 '9-11))",
    ),
    ("int * char", "*0-10(t0-3:0-3() t6-10:6-10())"),
    ("'a * 'b * 'c", "*0-12('0-2 '5-7 '10-12)"),
    ("('a * 'b) * 'c", "*0-14(*1-8('1-3 '6-8) '12-14)"),
    ("'a * ('b * 'c)", "*0-14('0-2 *6-13('6-8 '11-13))"),
    ("'a list * 'b", "*0-12(t0-7:3-7('0-2) '10-12)"),
    ("('a * 'b) list", "t0-14:10-14(*1-8('1-3 '6-8))"),
    ("'a -> 'b", ">0-8('0-2, '6-8)"),
    ("'a -> 'b -> 'c", ">0-14('0-2, >6-14('6-8, '12-14))"),
    ("('a -> 'b) -> 'c", ">0-16(>1-9('1-3, '7-9), '14-16)"),
    (
        "'a * 'b -> 'c * 'd",
        ">0-18(*0-7('0-2 '5-7), *11-18('11-13 '16-18))",
    ),
    ("('a -> 'b) list", "t0-15:11-15(>1-9('1-3, '7-9))"),
    ("('a -> 'b, 'c) t", "t0-16:15-16(>1-9('1-3, '7-9) '11-13)"),
    ("local_ 'a -> 'b", ">0-15(local '7-9, '13-15)"),
    ("'a -> local_ 'b", ">0-15('0-2, local '13-15)"),
    (
        "'a -> unique_ 'b -> 'c",
        ">0-22('0-2, >6-22(unique '14-16, '20-22))",
    ),
    (
        "unique_ local_ once_ 'a -> 'b",
        ">0-29(local unique once '21-23, '27-29)",
    ),
    (
        "global_ 'a -> shared_ many_ 'b",
        ">0-30(global '8-10, shared many '28-30)",
    ),
    (
        "local_ 'a * 'b -> 'c",
        ">0-20(local *7-14('7-9 '12-14), '18-20)",
    ),
    (
        "(local_ 'a -> 'b) -> 'c",
        ">0-23(>1-16(local '8-10, '14-16), '21-23)",
    ),
    ("((('a)))", "'3-5"),
    ("'a = 'b", "'0-2 then 3"),
    ("'a :: 'b", "'0-2 then 3"),
    ("'a Some", "'0-2 then 3"),
    ("", "rule 10 0-0"),
    ("local_ int", "rule 10 10-10"),
    ("(local_ int) -> int", "rule 10 11-12"),
    ("local_ global_ int -> int", "rule 10 7-14"),
    ("once_ once_ int -> int", "rule 10 6-11"),
    ("'a ->", "rule 10 5-5"),
    ("'a *", "rule 10 4-4"),
    ("* 'a", "rule 10 0-1"),
    ("()", "rule 10 1-2"),
    ("('a, )", "rule 10 5-6"),
    ("('a, 'b)", "rule 10 8-8"),
    ("('a, 'b) -> 'c", "rule 10 9-11"),
    ("('a 'b)", "rule 10 4-6"),
];

const DECLS: [Case; 32] = [
    ("t = int", "t 0-1 = t4-7:4-7()"),
    ("'a t = 'a list", "t 3-4 '0-2 = t7-14:10-14('7-9)"),
    ("('a) t = 'a", "t 5-6 '1-3 = '9-11"),
    (
        "('a, 'b) t = 'a * 'b",
        "t 9-10 '1-3 '5-7 = *13-20('13-15 '18-20)",
    ),
    ("t = A", "t 0-1 = |A 4-5"),
    ("t = | A", "t 0-1 = |A 6-7"),
    ("t = A | B of int", "t 0-1 = |A 4-5 |A 8-9 t13-16:13-16()"),
    ("t = A of 'a * 'b", "t 0-1 = |A 4-5 '9-11 '14-16"),
    ("t = A of ('a * 'b)", "t 0-1 = |A 4-5 *10-17('10-12 '15-17)"),
    (
        "t = A of local_ 'a -> 'b",
        "t 0-1 = |A 4-5 local >16-24('16-18, '22-24)",
    ),
    (
        "t = A of 'a -> local_ 'b * global_ 'c",
        "t 0-1 = |A 4-5 >9-24('9-11, local '22-24) global '35-37",
    ),
    (
        "t = A of global_ int * unique_ many_ 'a list",
        "t 0-1 = |A 4-5 global t17-20:17-20() unique many t37-44:40-44('37-39)",
    ),
    (
        "t = A of int and u = B",
        "t 0-1 = |A 4-5 t9-12:9-12(); t 17-18 = |A 21-22",
    ),
    ("t = {a : int}", "t 0-1 = .5-6 t9-12:9-12()"),
    ("t = {a : int;}", "t 0-1 = .5-6 t9-12:9-12()"),
    (
        "t = {a : int; global_ b : 'a * 'b}",
        "t 0-1 = .5-6 t9-12:9-12() .22-23 global *26-33('26-28 '31-33)",
    ),
    (
        "t = {a : local_ 'a -> 'b}",
        "t 0-1 = .5-6 >9-24(local '16-18, '22-24)",
    ),
    (
        "t = u and 'a v = {shared_ a : 'a;}",
        "t 0-1 = t4-5:4-5(); t 13-14 '10-12 = .26-27 shared '30-32",
    ),
    ("t = int let", "t 0-1 = t4-7:4-7() then 8"),
    ("t = A let", "t 0-1 = |A 4-5 then 6"),
    ("t = |", "rule 10 5-5"),
    ("t = {}", "rule 10 5-6"),
    ("t = {a : int;;}", "rule 10 12-14"),
    ("t = {; a : int}", "rule 10 5-6"),
    ("t = {a : int; ; b : int}", "rule 10 14-15"),
    ("t = {a : int b : int}", "rule 10 15-16"),
    ("t = A of", "rule 10 8-8"),
    ("t = A |", "rule 10 7-7"),
    ("() t = int", "rule 10 1-2"),
    ("'a 'b t = int", "rule 10 3-5"),
    ("t = int and", "rule 10 11-11"),
    ("T = int", "rule 10 0-1"),
];

fn put_span(out: &mut String, span: Span) -> Result<(), AllocError> {
    let start = span.start;
    let end = span.end;
    write!(out, "{start}-{end}")
}

fn put_words(out: &mut String, words: Words) -> Result<(), AllocError> {
    match words.loc {
        Some(Loc::Local) => out.push_str("local ")?,
        Some(Loc::Global) => out.push_str("global ")?,
        Some(Loc::Regional) => out.push_str("regional ")?,
        None => {}
    }
    match words.uni {
        Some(Uni::Unique) => out.push_str("unique ")?,
        Some(Uni::Shared) => out.push_str("shared ")?,
        None => {}
    }
    match words.aff {
        Some(Aff::Once) => out.push_str("once ")?,
        Some(Aff::Many) => out.push_str("many ")?,
        None => {}
    }
    Ok(())
}

#[cycle(show)]
fn put_type(out: &mut String, ty: &TyExpr) -> Result<(), AllocError> {
    match &ty.kind {
        TyKind::Var(name) => {
            out.push_str("'")?;
            put_span(out, *name)
        }
        TyKind::Con { name, args } => {
            out.push_str("t")?;
            put_span(out, ty.span)?;
            out.push_str(":")?;
            put_span(out, *name)?;
            put_types(out, args.as_slice())
        }
        TyKind::Tuple(parts) => {
            out.push_str("*")?;
            put_span(out, ty.span)?;
            put_types(out, parts.as_slice())
        }
        TyKind::Arrow { from, to } => {
            out.push_str(">")?;
            put_span(out, ty.span)?;
            out.push_str("(")?;
            put_arg(out, from.get())?;
            out.push_str(", ")?;
            put_arg(out, to.get())?;
            out.push_str(")")
        }
    }
}

#[cycle(show)]
fn put_types(out: &mut String, list: &[TyExpr]) -> Result<(), AllocError> {
    out.push_str("(")?;
    let mut first = true;
    for ty in list {
        if !first {
            out.push_str(" ")?;
        }
        first = false;
        put_type(out, ty)?;
    }
    out.push_str(")")
}

#[cycle(show)]
fn put_arg(out: &mut String, arg: &Arg) -> Result<(), AllocError> {
    put_words(out, arg.words)?;
    put_type(out, &arg.ty)
}

fn put_con(out: &mut String, con: &ConDecl) -> Result<(), AllocError> {
    out.push_str(" |A ")?;
    put_span(out, con.name)?;
    for arg in con.args.as_slice() {
        out.push_str(" ")?;
        put_arg(out, arg)?;
    }
    Ok(())
}

fn put_field(out: &mut String, field: &FieldDecl) -> Result<(), AllocError> {
    out.push_str(" .")?;
    put_span(out, field.name)?;
    out.push_str(" ")?;
    put_arg(out, &field.arg)
}

fn put_body(out: &mut String, body: &DeclBody) -> Result<(), AllocError> {
    match body {
        DeclBody::Variant(list) => {
            for con in list.as_slice() {
                put_con(out, con)?;
            }
            Ok(())
        }
        DeclBody::Fields(list) => {
            for field in list.as_slice() {
                put_field(out, field)?;
            }
            Ok(())
        }
        DeclBody::Alias(ty) => {
            out.push_str(" ")?;
            put_type(out, ty)
        }
    }
}

fn put_decl(out: &mut String, decl: &Decl) -> Result<(), AllocError> {
    out.push_str("t ")?;
    put_span(out, decl.name)?;
    for var in decl.vars.as_slice() {
        out.push_str(" '")?;
        put_span(out, *var)?;
    }
    out.push_str(" =")?;
    put_body(out, &decl.body)
}

fn put_error(out: &mut String, error: ParseErr) -> Result<(), AllocError> {
    match error {
        ParseErr::Refused(refusal) => {
            let rule = refusal.rule.number();
            write!(out, "rule {rule} ")?;
            put_span(out, refusal.span)
        }
        ParseErr::NoMemory => out.push_str("no memory"),
    }
}

/// The token at which reading stopped, if it is not the end.
fn put_rest(out: &mut String, tokens: &[Token], at: usize) -> Result<(), AllocError> {
    match tokens.get(at) {
        Some(token) => {
            let start = token.span.start;
            write!(out, " then {start}")
        }
        None => Ok(()),
    }
}

fn tokens_of(alloc: Global, text: &str) -> Result<Items<Token>, Fail> {
    let bytes = text.as_bytes();
    let end = u32::try_from(bytes.len()).ok().ok_or("long")?;
    let tokens = lex(alloc, bytes, Span { start: 0, end })
        .ok()
        .ok_or("no tokens")?;
    Ok(tokens)
}

fn type_answer(alloc: Global, text: &str) -> Result<String, Fail> {
    let tokens = tokens_of(alloc, text)?;
    let mut out = String::new(alloc);
    let mut at = 0;
    match read_type(alloc, tokens.as_slice(), &mut at, Row::Factors) {
        Ok(ty) => {
            put_type(&mut out, &ty)?;
            put_rest(&mut out, tokens.as_slice(), at)?;
        }
        Err(error) => put_error(&mut out, error)?,
    }
    Ok(out)
}

fn decls_answer(alloc: Global, text: &str) -> Result<String, Fail> {
    let tokens = tokens_of(alloc, text)?;
    let mut out = String::new(alloc);
    let mut at = 0;
    match read_decls(alloc, tokens.as_slice(), &mut at) {
        Ok(list) => {
            let mut first = true;
            for decl in list.as_slice() {
                if !first {
                    out.push_str("; ")?;
                }
                first = false;
                put_decl(&mut out, decl)?;
            }
            put_rest(&mut out, tokens.as_slice(), at)?;
        }
        Err(error) => put_error(&mut out, error)?,
    }
    Ok(out)
}

#[test]
fn types(rt: HostRuntime) -> Result<(), Fail> {
    for (text, expected) in &TYPES {
        let found = type_answer(rt.alloc(), text)?;
        assert_eq!(&rt; found.as_str(), *expected, "at {text:?}");
    }
    Ok(())
}

#[test]
fn declarations(rt: HostRuntime) -> Result<(), Fail> {
    for (text, expected) in &DECLS {
        let found = decls_answer(rt.alloc(), text)?;
        assert_eq!(&rt; found.as_str(), *expected, "at {text:?}");
    }
    Ok(())
}

/// A text with so many copies of another on either side of a third.
fn between(
    alloc: Global,
    count: usize,
    before: &str,
    middle: &str,
    behind: &str,
) -> Result<String, AllocError> {
    let mut text = String::new(alloc);
    for _ in 0..count {
        text.push_str(before)?;
    }
    text.push_str(middle)?;
    for _ in 0..count {
        text.push_str(behind)?;
    }
    Ok(text)
}

#[test]
fn depths(rt: HostRuntime) -> Result<(), Fail> {
    let alloc = rt.alloc();
    for (count, before, behind, is_type) in [
        (999, "(", ")", true),
        (1_000, "(", ")", false),
        (999, "", " t", true),
        (1_000, "", " t", false),
        (999, "'b -> ", "", true),
        (1_000, "'b -> ", "", false),
        (499, "('b * ", ")", true),
        (500, "('b * ", ")", false),
        (999, "('b, ", ") t", true),
        (1_000, "('b, ", ") t", false),
    ] {
        let text = between(alloc, count, before, "'a", behind)?;
        let tokens = tokens_of(alloc, text.as_str())?;
        let mut at = 0;
        let found = read_type(alloc, tokens.as_slice(), &mut at, Row::Factors);
        assert_eq!(&rt; found.is_ok(), is_type, "{count} of {before:?}");
    }
    Ok(())
}
