//! The largest sources and the deepest.
use crate::captures::push_times;
use crate::reading::words_of;
use std::alloc::{AllocError, Global};
use std::fmt::Write;
use std::test::Fail;

/// Items, each of which binds a name of its own.
fn distinct(alloc: Global, count: u32) -> Result<String, AllocError> {
    let mut file = String::new(alloc);
    for n in 0..count {
        write!(file, "let x{n} = 0 ")?;
    }
    Ok(file)
}

/// Scopes in one another, each of which uses the name of an item and binds a name of its own.
fn nested(alloc: Global, count: u32) -> Result<String, AllocError> {
    let mut file = String::from_str(alloc, "let x = 0 let y = ")?;
    for n in 0..count {
        write!(file, "let x{n} = x in ")?;
    }
    file.push_str("x0")?;
    Ok(file)
}

#[test]
fn largest(rt: HostRuntime) -> Result<(), Fail> {
    let alloc = rt.alloc();
    let apart = distinct(alloc, 50_000)?;
    assert_eq!(rt; words_of(alloc, apart.as_str())?.as_str(), "ok");
    let mut same = String::from_str(alloc, "let x = 0 ")?;
    push_times(&mut same, "let x = x ", 49_999)?;
    assert_eq!(rt; words_of(alloc, same.as_str())?.as_str(), "ok");
    let deep = nested(alloc, 999)?;
    assert_eq!(rt; words_of(alloc, deep.as_str())?.as_str(), "ok");
    Ok(())
}

/// A kind of nesting: what stands before it, its opening, its middle, its closing, and how often.
type Nesting = (&'static str, &'static str, &'static str, &'static str, u32);

/// Each kind as deep as a tree may be.
const NESTINGS: [Nesting; 14] = [
    ("let x = ", "let y = 1 in ", "y", "", 999),
    ("let x = ", "let y = ", "1", " in y", 999),
    ("let x = ", "let f y = ", "1", " in f", 999),
    ("let x = ", "let rec f y = ", "f", " in f", 999),
    ("let x = ", "fun y -> ", "y", "", 999),
    ("let x = ", "function y -> ", "y", "", 999),
    ("let x = ", "match 1 with y -> ", "y", "", 999),
    ("let f x = ", "let borrow_ y = x in ", "y", "", 999),
    ("let x = ", "if true then 1 else ", "1", "", 999),
    ("let x = ", "(", "1", ")", 999),
    ("let x = ", "[", "1", "]", 999),
    ("let x = ", "Some (", "1", ")", 499),
    ("type r = {a : int} let x = ", "{a = ", "1", "}", 999),
    ("let x = ", "1 + (", "1", ")", 499),
];

#[test]
fn deepest(rt: HostRuntime) -> Result<(), Fail> {
    let alloc = rt.alloc();
    for (start, open, middle, close, count) in NESTINGS {
        let mut file = String::from_str(alloc, start)?;
        push_times(&mut file, open, count)?;
        file.push_str(middle)?;
        push_times(&mut file, close, count)?;
        assert_eq!(rt;
            words_of(alloc, file.as_str())?.as_str(),
            "ok",
            "at {open:?}"
        );
    }
    Ok(())
}
