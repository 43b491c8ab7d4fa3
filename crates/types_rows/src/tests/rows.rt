//! The answer of inference for each source of the tables.

use super::inferring::{Inference, inferred};
use super::marking::{marked, unmarked};
use super::printing::scheme;
use super::repeating::repeated;
use super::tables::Row;
use super::tables::annotations::{ABBREVIATIONS, ANNOTATIONS};
use super::tables::clashes::{
    BINDS, CHOICES, OPERATORS, PARTS, PATTERNS as WRONG_PATTERNS, WRITTEN,
};
use super::tables::comparisons::{BAD, LATER, WITH_OTHERS};
use super::tables::cycles::{ALONE, MIXED, ORDER};
use super::tables::declared::{CONSTRUCTORS, LISTS, RECORDS};
use super::tables::expressions::{APPLICATIONS, CONTROL, LITERALS, NAMES};
use super::tables::inside::{GREAT, INSIDE};
use super::tables::items::{LOCALS, RECURSIVE, SEVERAL};
use super::tables::patterns::PATTERNS;
use super::tables::predefined::{OPERATIONS, PRELUDE_NAMES, SHADOWED};
use hm_infer::InferErr;
use ml_typing::Typed;
use std::alloc::Global;
use std::fmt::Write;
use std::process::Abort;
use std::test::Fail;

/// How many names the items of the prelude bind.
const PRELUDE_COUNT: usize = 7;

/// The types of a file's names in the order of their places, `; ` between them.
fn types(alloc: Global, of: &Inference, typed: &Typed) -> Result<String, Fail> {
    let mut out = String::new(alloc);
    let mut first = true;
    for one in typed.schemes.as_slice().iter().skip(PRELUDE_COUNT) {
        if !first {
            out.push_str("; ")?;
        }
        first = false;
        let shown = scheme(alloc, of, typed, one)?;
        out.push_str(shown.as_str())?;
    }
    Ok(out)
}

/// The answer for a file: the types of its names, or what refuses it.
pub fn words_of(alloc: Global, file: &str) -> Result<String, Fail> {
    let of = inferred(alloc, file)?;
    match &of.answer {
        Ok(typed) => types(alloc, &of, typed),
        Err(_) => refusal(alloc, file, &of),
    }
}

/// What refuses a file: a rule or the limit with the file, in which marks stand around the part that is
/// refused. It is empty where nothing does.
pub fn refusal(alloc: Global, file: &str, of: &Inference) -> Result<String, Fail> {
    let mut out = String::new(alloc);
    match &of.answer {
        Ok(_) => {}
        Err(InferErr::Refused(refusal)) => {
            let rule = refusal.rule.number();
            let place = marked(alloc, file, refusal.span)?;
            write!(out, "{rule} {place}")?;
        }
        Err(InferErr::Limit(limit, span)) => {
            let place = marked(alloc, file, *span)?;
            write!(out, "{limit:?} {place}")?;
        }
        Err(InferErr::NoMemory) => write!(out, "no memory")?,
    }
    Ok(out)
}

/// Whether each source of a table has the types that stand beside it.
fn check(rt: &impl Abort, alloc: Global, table: &[Row]) -> Result<(), Fail> {
    for row in table {
        check_row(rt, alloc, row.0, row.1)?;
    }
    Ok(())
}

fn check_row(rt: &impl Abort, alloc: Global, file: &str, expected: &str) -> Result<(), Fail> {
    let found = words_of(alloc, file)?;
    assert_eq!(rt; found.as_str(), expected);
    Ok(())
}

/// Whether each source of a table, in its short form, has types.
pub fn check_typed(rt: &impl Abort, alloc: Global, table: &[&'static str]) -> Result<(), Fail> {
    for short in table {
        check_typed_row(rt, alloc, short)?;
    }
    Ok(())
}

fn check_typed_row(rt: &impl Abort, alloc: Global, short: &str) -> Result<(), Fail> {
    let file = repeated(alloc, short)?;
    let of = inferred(alloc, file.as_str())?;
    let found = refusal(alloc, file.as_str(), &of)?;
    let none = String::new(alloc);
    assert_eq!(rt; found.as_str(), none.as_str());
    Ok(())
}

/// Whether each marked source of a table, in its short form, is refused at its marks for this reason.
pub fn check_refused(
    rt: &impl Abort,
    alloc: Global,
    reason: &str,
    table: &[&'static str],
) -> Result<(), Fail> {
    for short in table {
        check_refused_row(rt, alloc, reason, short)?;
    }
    Ok(())
}

fn check_refused_row(
    rt: &impl Abort,
    alloc: Global,
    reason: &str,
    short: &str,
) -> Result<(), Fail> {
    let long = repeated(alloc, short)?;
    let file = unmarked(alloc, long.as_str())?;
    let found = words_of(alloc, file.as_str())?;
    let mut wanted = String::new(alloc);
    wanted.push_str(reason)?;
    wanted.push_str(" ")?;
    wanted.push_str(long.as_str())?;
    assert_eq!(rt; found.as_str(), wanted.as_str());
    Ok(())
}

#[test]
fn expressions(rt: HostRuntime) -> Result<(), Fail> {
    check(&rt, rt.alloc(), &LITERALS)?;
    check(&rt, rt.alloc(), &NAMES)?;
    check(&rt, rt.alloc(), &APPLICATIONS)?;
    check(&rt, rt.alloc(), &CONTROL)
}

#[test]
fn declarations_and_patterns(rt: HostRuntime) -> Result<(), Fail> {
    check(&rt, rt.alloc(), &CONSTRUCTORS)?;
    check(&rt, rt.alloc(), &LISTS)?;
    check(&rt, rt.alloc(), &RECORDS)?;
    check(&rt, rt.alloc(), &PATTERNS)
}

#[test]
fn written_types(rt: HostRuntime) -> Result<(), Fail> {
    check(&rt, rt.alloc(), &ANNOTATIONS)?;
    check(&rt, rt.alloc(), &ABBREVIATIONS)
}

#[test]
fn declared_abbreviations(rt: HostRuntime) -> Result<(), Fail> {
    check(&rt, rt.alloc(), &INSIDE)
}

#[test]
fn great_abbreviations(rt: HostRuntime) -> Result<(), Fail> {
    check(&rt, rt.alloc(), &GREAT)
}

#[test]
fn names(rt: HostRuntime) -> Result<(), Fail> {
    check(&rt, rt.alloc(), &OPERATIONS)?;
    check(&rt, rt.alloc(), &PRELUDE_NAMES)?;
    check(&rt, rt.alloc(), &SHADOWED)?;
    check(&rt, rt.alloc(), &SEVERAL)?;
    check(&rt, rt.alloc(), &RECURSIVE)?;
    check(&rt, rt.alloc(), &LOCALS)
}

#[test]
fn different_types(rt: HostRuntime) -> Result<(), Fail> {
    check_refused(&rt, rt.alloc(), "40", &PARTS)?;
    check_refused(&rt, rt.alloc(), "40", &OPERATORS)?;
    check_refused(&rt, rt.alloc(), "40", &CHOICES)?;
    check_refused(&rt, rt.alloc(), "40", &WRONG_PATTERNS)?;
    check_refused(&rt, rt.alloc(), "40", &WRITTEN)?;
    check_refused(&rt, rt.alloc(), "40", &BINDS)
}

#[test]
fn infinite_types(rt: HostRuntime) -> Result<(), Fail> {
    check_refused(&rt, rt.alloc(), "41", &ALONE)?;
    check_refused(&rt, rt.alloc(), "40", &MIXED)?;
    check_refused(&rt, rt.alloc(), "41", &ORDER)
}

#[test]
fn comparisons(rt: HostRuntime) -> Result<(), Fail> {
    check_refused(&rt, rt.alloc(), "42", &BAD)?;
    check_refused(&rt, rt.alloc(), "40", &WITH_OTHERS)?;
    check(&rt, rt.alloc(), &LATER)
}
