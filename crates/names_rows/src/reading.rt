//! A file's names, found as the compiler finds them.
use source_reading::{Answer, resolved};
use std::alloc::Global;
use std::fmt::Write;
use std::process::Abort;
use std::test::Fail;

/// A source, and what is said of it.
pub type Case = (&'static str, &'static str);

/// The answer in words: `ok`, the rule with its span, or the limit.
pub fn words_of(alloc: Global, file: &str) -> Result<String, Fail> {
    let mut out = String::new(alloc);
    match resolved(alloc, file.as_bytes())? {
        Answer::Found(_) => write!(out, "ok")?,
        Answer::Limit(limit) => write!(out, "{limit:?}")?,
        Answer::Refused(refusal) => {
            let rule = refusal.rule.number();
            let start = refusal.span.start;
            let end = refusal.span.end;
            write!(out, "{rule} {start} {end}")?;
        }
    }
    Ok(out)
}

/// Whether each source of a table has its answer.
pub fn check(rt: &impl Abort, alloc: Global, table: &[Case]) -> Result<(), Fail> {
    for (file, expected) in table {
        check_one(rt, alloc, file, expected)?;
    }
    Ok(())
}

/// Whether a source has this answer.
fn check_one(rt: &impl Abort, alloc: Global, file: &str, expected: &str) -> Result<(), Fail> {
    let found = words_of(alloc, file)?;
    assert_eq!(rt; found.as_str(), expected, "at {file:?}");
    Ok(())
}

/// Whether each source of a list is accepted.
pub fn check_accepted(rt: &impl Abort, alloc: Global, list: &[&'static str]) -> Result<(), Fail> {
    for file in list {
        check_one(rt, alloc, file, "ok")?;
    }
    Ok(())
}
