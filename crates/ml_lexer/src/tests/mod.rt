//! The lexer on small texts, at its limit, and on parts of a text.

mod cases;

ghost use Rattle.std.specs.Prelude.{◌≤◌, length};

use crate::{LexErr, MAX_TOKENS, TokenKind, lex, text_bytes};
use cases::{COMMENTS, Case, NAMES, NUMBERS, OF_SIGNS, QUOTES, SIGNS, TEXTS, WORDS};
use oxml_base::Span;
use std::alloc::{AllocError, Global};
use std::fmt::Write;
use std::process::Abort;
use std::test::Fail;

/// The answer of `lex` for a part of a text, in the notation of the tables.
fn answer(alloc: Global, text: &[u8], part: Span) -> Result<String, AllocError>
    requires order { part.start ≤ part.end }
    requires within { part.end ≤ length text.now }
{
    let mut out = String::new(alloc);
    match lex(alloc, text, part) {
        Ok(tokens) => {
            for t in tokens.as_slice() {
                let kind = t.kind;
                let start = t.span.start;
                let end = t.span.end;
                write!(out, "{kind:?} {start} {end}; ")?;
            }
        }
        Err(LexErr::Refused(fault)) => {
            let rule = fault.rule.number();
            let start = fault.span.start;
            let end = fault.span.end;
            write!(out, "rule {rule} {start} {end}")?;
        }
        Err(LexErr::Limit(limit)) => write!(out, "{limit:?}")?,
        Err(LexErr::NoMemory) => write!(out, "no memory")?,
    }
    Ok(out)
}

/// The answer for a whole text.
fn whole_answer(alloc: Global, text: &[u8]) -> Result<String, AllocError> {
    match u32::try_from(text.len()) {
        Ok(end) => answer(alloc, text, Span { start: 0, end }),
        Err(_) => String::from_str(alloc, "too long"),
    }
}

/// Whether each text of a table has its answer.
fn check(rt: &impl Abort, alloc: Global, table: &[Case]) -> Result<(), Fail> {
    for (text, expected) in table {
        let found = whole_answer(alloc, text.as_bytes())?;
        assert_eq!(rt; found.as_str(), *expected, "at {text:?}");
    }
    Ok(())
}

#[test]
fn small_texts(rt: HostRuntime) -> Result<(), Fail> {
    check(&rt, rt.alloc(), &NAMES)?;
    check(&rt, rt.alloc(), &QUOTES)?;
    check(&rt, rt.alloc(), &NUMBERS)?;
    check(&rt, rt.alloc(), &TEXTS)?;
    check(&rt, rt.alloc(), &COMMENTS)?;
    check(&rt, rt.alloc(), &SIGNS)
}

#[test]
fn parts(rt: HostRuntime) -> Result<(), Fail> {
    for (text, start, end, expected) in [
        ("let x", 4, 5, "Lower 4 5; "),
        ("- 4611686018427387904", 2, 21, "rule 5 2 21"),
        ("(* x", 2, 4, "Lower 3 4; "),
        ("\"ab", 1, 3, "Lower 1 3; "),
        ("let", 0, 2, "Lower 0 2; "),
        ("a \"b\" c", 2, 4, "rule 3 2 3"),
        ("a \"b\" c", 2, 5, "Text 2 5; "),
        ("abc", 2, 2, ""),
    ] {
        let text = text.as_bytes();
        assert!(rt; start <= end && end as usize <= text.len());
        let found = answer(rt.alloc(), text, Span { start, end })?;
        assert_eq!(rt; found.as_str(), expected);
    }
    Ok(())
}

/// A text of so many `;;`, with more behind them.
fn separators(alloc: Global, count: usize, more: &str) -> Result<String, AllocError> {
    let mut text = String::new(alloc);
    for _ in 0..count {
        text.push_str(";;")?;
    }
    text.push_str(more)?;
    Ok(text)
}

#[test]
fn limit(rt: HostRuntime) -> Result<(), Fail> {
    let alloc = rt.alloc();
    for (count, more, expected) in [
        (200_001, "", "Tokens(200001)"),
        (200_001, "!", "Tokens(200001)"),
        (200_000, "!", "rule 1 400000 400001"),
        (200_000, " x", "Tokens(200001)"),
    ] {
        let text = separators(alloc, count, more)?;
        let found = whole_answer(alloc, text.as_str().as_bytes())?;
        assert_eq!(rt; found.as_str(), expected);
    }
    let text = separators(alloc, MAX_TOKENS, " (* *)")?;
    let bytes = text.as_str().as_bytes();
    let end = u32::try_from(bytes.len()).ok().ok_or("long")?;
    let tokens = lex(alloc, bytes, Span { start: 0, end })?;
    assert_eq!(rt; tokens.len(), MAX_TOKENS);
    Ok(())
}

#[test]
fn numbers_of_words_and_signs(rt: HostRuntime) -> Result<(), Fail> {
    let alloc = rt.alloc();
    for (text, number) in WORDS {
        let end = text.len();
        let expected = format!(in alloc; "Word({number}) 0 {end}; ")?;
        let found = whole_answer(alloc, text.as_bytes())?;
        assert_eq!(rt; found.as_str(), expected.as_str());
    }
    for (text, number) in OF_SIGNS {
        let end = text.len();
        let expected = format!(in alloc; "Sign({number}) 0 {end}; ")?;
        let found = whole_answer(alloc, text.as_bytes())?;
        assert_eq!(rt; found.as_str(), expected.as_str());
    }
    Ok(())
}

#[test]
fn literals(rt: HostRuntime) -> Result<(), Fail> {
    let alloc = rt.alloc();
    for (text, expected) in [
        ("\"\"", ""),
        (" \"x\\065y\"", "xAy"),
        ("\"a\nb\"", "a\nb"),
        (
            "\"\\\\\\\"\\'\\n\\t\\b\\r\\ \\065\\x41\\o101\"",
            "\\\"'\n\t\x08\r AAA",
        ),
    ] {
        let text = text.as_bytes();
        let end = u32::try_from(text.len()).ok().ok_or("long")?;
        let tokens = lex(alloc, text, Span { start: 0, end })?;
        assert_eq!(rt; tokens.len(), 1);
        let token = tokens.as_slice()[0];
        assert_eq!(rt; token.kind, TokenKind::Text);
        let literal = text_bytes(alloc, text, token)?;
        assert_eq!(rt; literal.bytes.as_slice(), expected.as_bytes());
    }
    Ok(())
}
