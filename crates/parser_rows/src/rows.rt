//! The parser on small sources.

use crate::read::{NoProgram, read};
use crate::tables::Case;
use crate::tables::applied::APPLIED;
use crate::tables::atoms::ATOMS;
use crate::tables::items::ITEMS;
use crate::tables::open_forms::{LAST_OPERANDS, OPEN_FORMS};
use crate::tables::operators::OPERATORS;
use crate::tables::patterns::PATTERNS;
use crate::tables::refused::{NO_ATOMS, NO_FORMS, NO_ITEMS, NO_TOKENS};
use crate::tables::spans::SPANS;
use crate::tables::types::TYPES;
use ml_parser::PRELUDE;
use std::alloc::{AllocError, Global};
use std::fmt::Write;
use std::process::Abort;
use std::test::Fail;
use tree_text::print;

fn refusal(alloc: Global, error: NoProgram) -> Result<String, AllocError> {
    let mut out = String::new(alloc);
    match error {
        NoProgram::Refused(refusal) => {
            let rule = refusal.rule.number();
            let start = refusal.span.start;
            let end = refusal.span.end;
            write!(out, "rule {rule} {start} {end}")?;
        }
        other => write!(out, "{other:?}")?,
    }
    Ok(out)
}

/// The tree of a whole text or its refusal, in the notation of the tables.
fn answer(alloc: Global, text: &[u8], spans: bool) -> Result<String, AllocError> {
    match read(alloc, text) {
        Ok(program) => print(alloc, text, &program, spans),
        Err(error) => refusal(alloc, error),
    }
}

/// Whether each source of a table has its answer.
fn check(rt: &impl Abort, alloc: Global, table: &[Case], spans: bool) -> Result<(), Fail> {
    for (text, expected) in table {
        let found = answer(alloc, text.as_bytes(), spans)?;
        assert_eq!(rt; found.as_str(), *expected, "at {text:?}");
    }
    Ok(())
}

#[test]
fn expressions(rt: HostRuntime) -> Result<(), Fail> {
    check(&rt, rt.alloc(), &ATOMS, false)?;
    check(&rt, rt.alloc(), &APPLIED, false)?;
    check(&rt, rt.alloc(), &OPERATORS, false)
}

#[test]
fn open_forms(rt: HostRuntime) -> Result<(), Fail> {
    check(&rt, rt.alloc(), &OPEN_FORMS, false)?;
    check(&rt, rt.alloc(), &LAST_OPERANDS, false)
}

#[test]
fn patterns_and_types(rt: HostRuntime) -> Result<(), Fail> {
    check(&rt, rt.alloc(), &PATTERNS, false)?;
    check(&rt, rt.alloc(), &TYPES, false)
}

#[test]
fn programs(rt: HostRuntime) -> Result<(), Fail> {
    check(&rt, rt.alloc(), &ITEMS, false)
}

#[test]
fn refusals(rt: HostRuntime) -> Result<(), Fail> {
    check(&rt, rt.alloc(), &NO_ITEMS, false)?;
    check(&rt, rt.alloc(), &NO_FORMS, false)?;
    check(&rt, rt.alloc(), &NO_ATOMS, false)?;
    check(&rt, rt.alloc(), &NO_TOKENS, false)
}

#[test]
fn spans(rt: HostRuntime) -> Result<(), Fail> {
    check(&rt, rt.alloc(), &SPANS, true)
}

/// The built-in definitions, each item behind a blank.
const PRELUDE_TREE: &str = "(let [not b = (if b false true)]) \
(let [fst (, a _) = a]) \
(let [snd (, _ b) = b]) \
(let [ignore _ = ()]) \
(let [print_newline () = (@ print_char #10)]) \
(let [print_endline s = (; (@ print_string s) (@ print_char #10))]) \
(letrec [append__ a b = (match a | [] -> b | (:: h t) -> (:: h (@ append__ t b)))])";

#[test]
fn the_prelude(rt: HostRuntime) -> Result<(), Fail> {
    let found = answer(rt.alloc(), PRELUDE, false)?;
    assert_eq!(rt; found.as_str(), PRELUDE_TREE);
    Ok(())
}
