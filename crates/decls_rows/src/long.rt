//! A chain of 10,000 abbreviations.

use crate::rows::answer;
use std::alloc::{AllocError, Global};
use std::fmt::Write;
use std::test::Fail;

/// `type t0 = t1 and t1 = t2 ..`, so many abbreviations, the last of which stands for this type.
fn chain(alloc: Global, length: u32, last: &str) -> Result<String, AllocError> {
    let mut text = String::new(alloc);
    for n in 1..length {
        let word = if n == 1 { "type" } else { " and" };
        let before = n - 1;
        write!(text, "{word} t{before} = t{n}")?;
    }
    let end = length.saturating_sub(1);
    write!(text, " and t{end} = {last}")?;
    Ok(text)
}

#[test]
fn long_chain(rt: HostRuntime) -> Result<(), Fail> {
    let alloc = rt.alloc();
    let open = chain(alloc, 10_000, "int")?;
    assert_eq!(rt; answer(alloc, open.as_bytes())?.as_str(), "declared");
    // The first of those on the ring is the one that the last names: `t8000`.
    let closed = chain(alloc, 10_000, "t8000")?;
    assert_eq!(rt;
        answer(alloc, closed.as_bytes())?.as_str(),
        "rule 33 141788 141793"
    );
    Ok(())
}
