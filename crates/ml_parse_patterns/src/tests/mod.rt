//! Small patterns and parameters with their trees, and sources that have none, worked out by hand from
//! the grammar.
//!
//! A tree is written with the bytes of each node: `x0-1` a name, with the bytes of the name alone behind
//! its words (`local x0-8:7-8`), `C0-6:0-4(..)` a constructor, `cons0-6(.., ..)`, `tuple`, `list`, `or`,
//! `as0-6(.., 5-6)`, `typed0-7(.., 5-6)` with the bytes of the type, `paren`, and `record0-5(1-2 ..)` with
//! the name of each field.

mod cases;

ghost use Rattle.std.specs.Prelude.{◌≤◌, length};

use crate::{read_param, read_params, read_pattern};
use cases::{PARAMS, PATTERNS};
use ml_cursor::ParseErr;
use ml_lexer::{Token, lex};
use ml_tree::{Aff, ConName, FieldPat, Loc, Param, Pat, PatKind, Uni, Words};
use oxml_base::{Items, Span};
use std::alloc::{AllocError, Global};
use std::fmt::Write;
use std::test::Fail;

fn put_span(out: &mut String, span: Span) -> Result<(), AllocError> {
    let start = span.start;
    let end = span.end;
    write!(out, "{start}-{end}")
}

fn put_words(out: &mut String, words: Words) -> Result<(), AllocError> {
    match words.loc {
        Some(Loc::Local) => out.push_str("local ")?,
        Some(Loc::Global) => out.push_str("global ")?,
        Some(Loc::Regional) => out.push_str("regional ")?,
        None => {}
    }
    match words.uni {
        Some(Uni::Unique) => out.push_str("unique ")?,
        Some(Uni::Shared) => out.push_str("shared ")?,
        None => {}
    }
    match words.aff {
        Some(Aff::Once) => out.push_str("once ")?,
        Some(Aff::Many) => out.push_str("many ")?,
        None => {}
    }
    Ok(())
}

fn put_con(out: &mut String, span: Span, name: ConName) -> Result<(), AllocError> {
    match name {
        ConName::Named(name) => {
            out.push_str("C")?;
            put_span(out, span)?;
            out.push_str(":")?;
            return put_span(out, name);
        }
        ConName::True => out.push_str("true")?,
        ConName::False => out.push_str("false")?,
        ConName::Unit => out.push_str("unit")?,
        ConName::Nil => out.push_str("nil")?,
    }
    put_span(out, span)
}

fn put_head(out: &mut String, name: &str, span: Span) -> Result<(), AllocError> {
    out.push_str(name)?;
    put_span(out, span)
}

fn put_bytes(out: &mut String, bytes: &[u8]) -> Result<(), AllocError> {
    for byte in bytes {
        write!(out, " {byte}")?;
    }
    Ok(())
}

#[cycle(show)]
fn put_part(out: &mut String, before: &str, pat: &Pat) -> Result<(), AllocError> {
    out.push_str(before)?;
    put_pat(out, pat)
}

#[cycle(show)]
fn put_list(out: &mut String, name: &str, span: Span, list: &[Pat]) -> Result<(), AllocError> {
    put_head(out, name, span)?;
    out.push_str("(")?;
    for (i, pat) in list.iter().enumerate() {
        if i > 0 {
            out.push_str(" ")?;
        }
        put_pat(out, pat)?;
    }
    out.push_str(")")
}

#[cycle(show)]
fn put_fields(
    out: &mut String,
    span: Span,
    list: &[FieldPat],
    more: bool,
) -> Result<(), AllocError> {
    put_head(out, "record", span)?;
    out.push_str("(")?;
    for (i, field) in list.iter().enumerate() {
        if i > 0 {
            out.push_str("; ")?;
        }
        put_span(out, field.name)?;
        put_part(out, " ", &field.pat)?;
    }
    if more {
        out.push_str("; _")?;
    }
    out.push_str(")")
}

#[cycle(show)]
fn put_inner(out: &mut String, inner: &Pat, behind: Option<Span>) -> Result<(), AllocError> {
    out.push_str("(")?;
    put_pat(out, inner)?;
    if let Some(span) = behind {
        out.push_str(", ")?;
        put_span(out, span)?;
    }
    out.push_str(")")
}

#[cycle(show)]
fn put_pat(out: &mut String, pat: &Pat) -> Result<(), AllocError> {
    let span = pat.span;
    match &pat.kind {
        PatKind::Any => put_head(out, "_", span),
        PatKind::Name(words, name) => {
            put_words(out, *words)?;
            put_head(out, "x", span)?;
            if *name == span {
                return Ok(());
            }
            put_head(out, ":", *name)
        }
        PatKind::Int(value) => {
            put_head(out, "i", span)?;
            write!(out, "={value}")
        }
        PatKind::Char(byte) => {
            put_head(out, "c", span)?;
            write!(out, "={byte}")
        }
        PatKind::Text(lit) => {
            put_head(out, "s", span)?;
            put_bytes(out, lit.bytes.as_slice())
        }
        PatKind::Con { name, arg } => {
            put_con(out, span, *name)?;
            match arg {
                Some(inner) => put_inner(out, inner.get(), None),
                None => Ok(()),
            }
        }
        PatKind::Cons(one, other) => {
            put_head(out, "cons", span)?;
            put_part(out, "(", one.get())?;
            put_part(out, ", ", other.get())?;
            out.push_str(")")
        }
        PatKind::Or(one, other) => {
            put_head(out, "or", span)?;
            put_part(out, "(", one.get())?;
            put_part(out, ", ", other.get())?;
            out.push_str(")")
        }
        PatKind::Tuple(list) => put_list(out, "tuple", span, list.as_slice()),
        PatKind::List(list) => put_list(out, "list", span, list.as_slice()),
        PatKind::Fields { list, rest } => put_fields(out, span, list.as_slice(), *rest),
        PatKind::Named(inner, name) => {
            put_head(out, "as", span)?;
            put_inner(out, inner.get(), Some(*name))
        }
        PatKind::Typed(inner, ty) => {
            put_head(out, "typed", span)?;
            put_inner(out, inner.get(), Some(ty.span))
        }
        PatKind::Paren(inner) => {
            put_head(out, "paren", span)?;
            put_inner(out, inner.get(), None)
        }
    }
}

fn put_param(out: &mut String, param: &Param) -> Result<(), AllocError> {
    put_words(out, param.words)?;
    put_pat(out, &param.pat)
}

fn put_error(out: &mut String, error: ParseErr) -> Result<(), AllocError> {
    match error {
        ParseErr::Refused(refusal) => {
            let rule = refusal.rule.number();
            write!(out, "rule {rule} ")?;
            put_span(out, refusal.span)
        }
        ParseErr::NoMemory => out.push_str("no memory"),
    }
}

/// The token at which reading stopped, if it is not the end.
fn put_rest(out: &mut String, tokens: &[Token], at: usize) -> Result<(), AllocError> {
    match tokens.get(at) {
        Some(token) => {
            let start = token.span.start;
            write!(out, " then {start}")
        }
        None => Ok(()),
    }
}

fn pattern_answer(alloc: Global, text: &str) -> Result<String, Fail> {
    let bytes = text.as_bytes();
    let end = u32::try_from(bytes.len()).ok().ok_or("long")?;
    let tokens = lex(alloc, bytes, Span { start: 0, end })
        .ok()
        .ok_or("no tokens")?;
    let mut out = String::new(alloc);
    let mut at = 0;
    match read_pattern(alloc, bytes, tokens.as_slice(), &mut at, 1000) {
        Ok(found) => {
            let depth = found.depth;
            put_pat(&mut out, &found.pat)?;
            write!(&mut out, " /{depth}")?;
            put_rest(&mut out, tokens.as_slice(), at)?;
        }
        Err(error) => put_error(&mut out, error)?,
    }
    Ok(out)
}

fn params_answer(alloc: Global, text: &str) -> Result<String, Fail> {
    let bytes = text.as_bytes();
    let end = u32::try_from(bytes.len()).ok().ok_or("long")?;
    let tokens = lex(alloc, bytes, Span { start: 0, end })
        .ok()
        .ok_or("no tokens")?;
    let mut out = String::new(alloc);
    let mut at = 0;
    match read_params(alloc, bytes, tokens.as_slice(), &mut at, 1000) {
        Ok(found) => {
            let depth = found.depth;
            for param in found.list.as_slice() {
                put_param(&mut out, param)?;
                out.push_str(" ")?;
            }
            write!(&mut out, "/{depth}")?;
            put_rest(&mut out, tokens.as_slice(), at)?;
        }
        Err(error) => put_error(&mut out, error)?,
    }
    Ok(out)
}

#[test]
fn patterns(rt: HostRuntime) -> Result<(), Fail> {
    for (text, expected) in &PATTERNS {
        let found = pattern_answer(rt.alloc(), text)?;
        assert_eq!(&rt; found.as_str(), *expected, "at {text:?}");
    }
    Ok(())
}

#[test]
fn params(rt: HostRuntime) -> Result<(), Fail> {
    for (text, expected) in &PARAMS {
        let found = params_answer(rt.alloc(), text)?;
        assert_eq!(&rt; found.as_str(), *expected, "at {text:?}");
    }
    Ok(())
}

#[test]
fn one_param(rt: HostRuntime) -> Result<(), Fail> {
    let alloc = rt.alloc();
    let text = b"(x) y";
    let tokens = lex(alloc, text, Span { start: 0, end: 5 })
        .ok()
        .ok_or("no tokens")?;
    let mut at = 0;
    let found = read_param(alloc, text, tokens.as_slice(), &mut at, 1)
        .ok()
        .ok_or("a parameter")?;
    assert_eq!(rt; found.depth, 1);
    assert_eq!(rt; at, 3);
    Ok(())
}

/// Whether a text with so many copies of another on either side of a third is read to its end.
fn is_read(
    alloc: Global,
    count: usize,
    before: &str,
    middle: &str,
    behind: &str,
) -> Result<bool, Fail> {
    let mut text = String::new(alloc);
    for _ in 0..count {
        text.push_str(before)?;
    }
    text.push_str(middle)?;
    for _ in 0..count {
        text.push_str(behind)?;
    }
    let bytes = text.as_bytes();
    let end = u32::try_from(bytes.len()).ok().ok_or("long")?;
    let tokens = lex(alloc, bytes, Span { start: 0, end })
        .ok()
        .ok_or("no tokens")?;
    let mut at = 0;
    let found = read_pattern(alloc, bytes, tokens.as_slice(), &mut at, 1000);
    Ok(found.is_ok() && at == tokens.len())
}

#[test]
fn depths(rt: HostRuntime) -> Result<(), Fail> {
    for (before, middle, behind) in [
        ("(", "x", ")"),
        ("(", "x", " : int)"),
        ("[", "x", "]"),
        ("[y; ", "x", "]"),
        ("{f = ", "x", "}"),
        ("{f; g = ", "x", "; _}"),
        ("y :: ", "x", ""),
        ("", "x", " | y"),
        ("", "x", " as y"),
    ] {
        assert!(&rt;
            is_read(rt.alloc(), 999, before, middle, behind)?,
            "999 of {before:?}"
        );
        assert!(&rt;
            !is_read(rt.alloc(), 1_000, before, middle, behind)?,
            "1,000 of {before:?}"
        );
    }
    for (before, middle, behind) in [("C (", "x", ")"), ("(y, ", "x", ")"), ("(y | ", "x", ")")] {
        assert!(&rt;
            is_read(rt.alloc(), 499, before, middle, behind)?,
            "499 of {before:?}"
        );
        assert!(&rt;
            !is_read(rt.alloc(), 500, before, middle, behind)?,
            "500 of {before:?}"
        );
    }
    Ok(())
}
