//! The parser at its limits: the deepest trees, and the largest lists.

use crate::read::{NoProgram, read};
use oxml_base::Limit;
use std::alloc::{AllocError, Global};
use std::process::Abort;
use std::test::Fail;

/// What is read from a text, in a word.
fn outcome(alloc: Global, text: &[u8]) -> &'static str {
    match read(alloc, text) {
        Ok(_) => "tree",
        Err(NoProgram::Refused(refusal)) => {
            if refusal.rule.number() == 10 {
                "rule 10"
            } else {
                "another rule"
            }
        }
        Err(NoProgram::Limit(Limit::Tokens(200_001))) => "limit tokens 200001",
        Err(_) => "another answer",
    }
}

/// The text with a thing so many times behind it.
fn add_copies(text: &mut String, thing: &str, count: u32) -> Result<(), AllocError> {
    for _ in 0..count {
        text.push_str(thing)?;
    }
    Ok(())
}

/// A kind of nesting: what stands before it, its opening, its middle, its closing, what stands behind.
type Nesting = (
    &'static str,
    &'static str,
    &'static str,
    &'static str,
    &'static str,
);

/// The source with so many levels of a kind of nesting.
fn nested(alloc: Global, nesting: &Nesting, count: u32) -> Result<String, AllocError> {
    let (before, open, middle, close, behind) = *nesting;
    let mut text = String::from_str(alloc, before)?;
    add_copies(&mut text, open, count)?;
    text.push_str(middle)?;
    add_copies(&mut text, close, count)?;
    text.push_str(behind)?;
    Ok(text)
}

/// Whether each kind of nesting is read at a depth and refused at a greater one.
fn check_depths(
    rt: &impl Abort,
    alloc: Global,
    table: &[Nesting],
    most: u32,
    above: u32,
) -> Result<(), Fail> {
    for nesting in table {
        let open = nesting.1;
        let text = nested(alloc, nesting, most)?;
        let found = outcome(alloc, text.as_str().as_bytes());
        assert_eq!(rt; found, "tree", "{most} times {open:?}");
        let text = nested(alloc, nesting, above)?;
        let found = outcome(alloc, text.as_str().as_bytes());
        assert_eq!(rt; found, "rule 10", "{above} times {open:?}");
    }
    Ok(())
}

/// Each level is one node of the tree; the innermost expression or pattern is the thousandth.
const ONE_NODE: [Nesting; 30] = [
    ("let () = ", "(", "()", ")", ""),
    ("let x = ", "begin ", "1", " end", ""),
    ("let x = ", "let y = 1 in ", "1", "", ""),
    ("let x = ", "let y = ", "1", " in 1", ""),
    ("let x = ", "let borrow_ y = z in ", "1", "", ""),
    ("let x = ", "fun y -> ", "1", "", ""),
    ("let x = ", "function y -> ", "1", "", ""),
    ("let x = ", "if a then ", "1", "", ""),
    ("let x = ", "if a then b else ", "1", "", ""),
    ("let x = ", "if ", "a", " then b", ""),
    ("let x = ", "match a with b -> ", "1", "", ""),
    ("let x = ", "match ", "a", " with b -> 1", ""),
    ("let x = ", "exclave_ ", "1", "", ""),
    ("let x = ", "local_ ", "1", "", ""),
    ("let x = ", "- ", "x", "", ""),
    ("let x = ", "[", "1", "]", ""),
    ("let x = ", "{f = ", "1", "}", ""),
    ("let x = ", "y.[", "1", "]", ""),
    ("let x = ", "1 :: ", "1", "", ""),
    ("let x = ", "1 + ", "1", "", ""),
    ("let x = ", "a && ", "b", "", ""),
    ("let x = y", "", "", ".f", ""),
    ("let ", "(", "x", ")", " = 1"),
    ("let ", "[", "x", "]", " = 1"),
    ("let ", "{f = ", "x", "}", " = 1"),
    ("let ", "y :: ", "x", "", " = 1"),
    ("let x", "", "", " as y", " = 1"),
    ("type t = ", "(", "int", ")", ""),
    ("type t = ", "int -> ", "int", "", ""),
    ("let x : ", "(", "int", ")", " = 1"),
];

/// Each level is two nodes of the tree.
const TWO_NODES: [Nesting; 4] = [
    ("let x = ", "A (", "1", ")", ""),
    ("let x = ", "f (", "1", ")", ""),
    ("let x = ", "(1, ", "1", ")", ""),
    ("let ", "A (", "x", ")", " = 1"),
];

#[test]
fn deepest(rt: HostRuntime) -> Result<(), Fail> {
    check_depths(&rt, rt.alloc(), &ONE_NODE, 999, 1_000)?;
    check_depths(&rt, rt.alloc(), &TWO_NODES, 499, 500)
}

/// A source of many copies, and what is read from it: what stands before them, the thing, how many,
/// what stands behind.
type Repetition = (&'static str, &'static str, u32, &'static str, &'static str);

const REPETITIONS: [Repetition; 13] = [
    ("let () = print_int (1", " + 1", 997, ")", "tree"),
    ("let () = print_int (1", " + 1", 998, ")", "rule 10"),
    ("let x = 1", " + 1", 99_997, "", "rule 10"),
    ("let x = [0", "; 0", 99_997, "]", "tree"),
    ("let x = [0", "; 0", 99_998, "]", "limit tokens 200001"),
    ("", ";;", 200_000, "", "tree"),
    ("", ";;", 200_001, "", "limit tokens 200001"),
    ("", " ", 1_048_576, "", "tree"),
    ("", "let x = 1 ", 50_000, "", "tree"),
    ("let x = function 0 -> 0", " | 0 -> 0", 9_999, "", "tree"),
    ("let x = f", " 1", 199_996, "", "tree"),
    ("let x = 1", ", 1", 99_998, "", "tree"),
    ("let x = 1", "; 1", 99_998, "", "tree"),
];

#[test]
fn widest(rt: HostRuntime) -> Result<(), Fail> {
    let alloc = rt.alloc();
    for (before, thing, count, behind, expected) in &REPETITIONS {
        let mut text = String::from_str(alloc, before)?;
        add_copies(&mut text, thing, *count)?;
        text.push_str(behind)?;
        let found = outcome(alloc, text.as_str().as_bytes());
        assert_eq!(rt; found, *expected, "{count} times {thing:?}");
    }
    Ok(())
}
