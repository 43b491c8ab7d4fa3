//! The rules on declarations on small sources.

use crate::cases::{ARGUMENTS, DECLARED, RINGS, TWICE, VARIABLES};
use ml_decls::{DeclErr, check_decls};
use ml_lexer::lex;
use ml_parser::parse;
use ml_scope::resolve;
use ml_tree::Scoped;
use oxml_base::{Refusal, Span};
use std::alloc::{AllocError, Global};
use std::process::Abort;
use std::test::Fail;

/// A source, and what `check_decls` answers for it: `declared`, or the rule with its place.
pub type Case = (&'static str, &'static str);

/// The program of a whole text, its names resolved; `None` where it has none.
fn scoped(alloc: Global, text: &[u8]) -> Option<Scoped> {
    let end = u32::try_from(text.len()).ok()?;
    let tokens = lex(alloc, text, Span { start: 0, end }).ok()?;
    let program = parse(alloc, text, tokens.as_slice()).ok()?;
    resolve(alloc, text, program).ok()
}

fn violation(alloc: Global, refusal: Refusal) -> Result<String, AllocError> {
    let rule = refusal.rule.number();
    let start = refusal.span.start;
    let end = refusal.span.end;
    format!(in alloc; "rule {rule} {start} {end}")
}

/// The answer of `check_decls` for a whole text, in the notation of the tables.
pub fn answer(alloc: Global, text: &[u8]) -> Result<String, AllocError> {
    let Some(program) = scoped(alloc, text) else {
        return String::from_str(alloc, "no program");
    };
    match check_decls(alloc, text, &program) {
        Ok(_) => String::from_str(alloc, "declared"),
        Err(DeclErr::Refused(refusal)) => violation(alloc, refusal),
        Err(DeclErr::NoMemory) => String::from_str(alloc, "no memory"),
    }
}

/// Whether each source of a table has its answer.
fn check(rt: &impl Abort, alloc: Global, table: &[Case]) -> Result<(), Fail> {
    for (text, expected) in table {
        let found = answer(alloc, text.as_bytes())?;
        assert_eq!(rt; found.as_str(), *expected, "at {text:?}");
    }
    Ok(())
}

#[test]
fn small_sources(rt: HostRuntime) -> Result<(), Fail> {
    check(&rt, rt.alloc(), &ARGUMENTS)?;
    check(&rt, rt.alloc(), &VARIABLES)?;
    check(&rt, rt.alloc(), &TWICE)?;
    check(&rt, rt.alloc(), &RINGS)?;
    check(&rt, rt.alloc(), &DECLARED)
}
