//! The programs of docs/REFUSALS.md, with the lines that stand there.
use crate::captures::capturing;
use crate::reading::{Case, check_accepted};
use oxml_base::{Limit, Refusal, line_col};
use source_reading::{Answer, resolved};
use std::alloc::Global;
use std::test::Fail;

/// Each program that the page shows, and the line that refuses it.
const PAGE: [Case; 10] = [
    ("let a = b + 1", "a.ml:1:9: rule 20: unbound value"),
    ("let f x = f (x - 1)", "a.ml:1:11: rule 20: unbound value"),
    (
        "let a = Leaf",
        "a.ml:1:9: rule 21: unbound constructor or field",
    ),
    ("let f (x : number) = x", "a.ml:1:12: rule 22: unbound type"),
    ("let f (x, x) = 0", "a.ml:1:11: rule 23: name bound twice"),
    (
        "type pair = Pair of int * int\nlet a = Pair 1",
        "a.ml:2:9: rule 24: wrong number of fields",
    ),
    (
        "type pair = Pair of int * int\nlet p = (1, 2)\nlet a = Pair p",
        "a.ml:3:9: rule 24: wrong number of fields",
    ),
    (
        "let f x = match x with Some a | a -> 0",
        "a.ml:1:24: rule 25: form left out",
    ),
    (
        "let a = let rec f x = g x and g x = f x in f 1",
        "a.ml:1:9: rule 25: form left out",
    ),
    ("let rec x = 1", "a.ml:1:9: rule 25: form left out"),
];

/// The cures that the page gives.
const CURES: [&str; 12] = [
    "let b = 1\nlet a = b + 1",
    "let rec f x = f (x - 1)",
    "type tree = Leaf | Node of tree * tree\nlet a = Leaf",
    "type number = int\nlet f (x : number) = x",
    "let f (x, _) = 0",
    "type pair = Pair of int * int\nlet a = Pair (1, 2)",
    "type pair = Pair of (int * int)\nlet p = (1, 2)\nlet a = Pair p",
    "let f x = match x with Some a -> 0 | a -> 0",
    "let rec f x = g x and g x = f x\nlet a = f 1",
    "let x = 1",
    "let rec x () = 1",
    "let a = String.length \"a\" let b = String.get \"a\" 0",
];

/// The line of a refusal.
fn refused(alloc: Global, file: &[u8], refusal: Refusal) -> Result<String, Fail> {
    let start = refusal.span.start;
    if start as usize > file.len() {
        return Err("a place behind the file")?;
    }
    let (line, column) = line_col(file, start);
    let rule = refusal.rule.number();
    let text = refusal.rule.text();
    Ok(format!(in alloc; "a.ml:{line}:{column}: rule {rule}: {text}")?)
}

/// The line that `resolve` gives a file, empty where the file is accepted.
fn line(alloc: Global, file: &str) -> Result<String, Fail> {
    match resolved(alloc, file.as_bytes())? {
        Answer::Found(_) => Ok(String::new(alloc)),
        Answer::Refused(refusal) => refused(alloc, file.as_bytes(), refusal),
        Answer::Limit(Limit::Captures(first)) => {
            Ok(format!(in alloc; "a.ml: limit captures {first}")?)
        }
        _ => Err("another answer")?,
    }
}

#[test]
fn programs_of_the_page(rt: HostRuntime) -> Result<(), Fail> {
    for (file, expected) in PAGE {
        assert_eq!(rt; line(rt.alloc(), file)?.as_str(), expected, "at {file:?}");
    }
    let many = capturing(rt.alloc(), "", ("fun _ -> ", ""), 101, ("", "; "))?;
    assert_eq!(rt;
        line(rt.alloc(), many.as_str())?.as_str(),
        "a.ml: limit captures 100001"
    );
    check_accepted(&rt, rt.alloc(), &CURES)
}
