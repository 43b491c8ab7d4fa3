//! Which `let`s an `in` closes.

use crate::closed_lets;
use ml_lexer::lex;
use oxml_base::Span;
use std::alloc::{AllocError, Global};
use std::fmt::Write;
use std::process::Abort;
use std::test::Fail;

/// Texts, and the places of their closed `let`s among the tokens, worked out by hand: `let`s and
/// brackets go on a stack, an `in` takes a `let` off the top, a closing bracket takes all down to its
/// opening one, and `type` and `;;` empty it.
const CASES: [(&str, &str); 14] = [
    ("let a = 1 in a", "0 "),
    ("let a = 1; let b = 2", ""),
    ("let a = 1; let x = 2; let y = 3 in y", "10 "),
    ("let f x = let y = x in let z = y in z", "4 9 "),
    ("let a = let b = 1 in let c = 2 in c in a", "0 3 8 "),
    ("(let a = 1) in", ""),
    ("let a = (let b = 1 in b) in a", "0 4 "),
    ("let a = [let b = {c = 1} in b] in a", "0 4 "),
    ("let a = begin 1 end in a", "0 "),
    ("let a = ( in ) in a", "0 "),
    ("let a = ( in a", ""),
    ("let a ) in", ""),
    ("let a = 1 type t = int in", ""),
    ("let a = 1 ;; in let b = 2 in b", "6 "),
];

fn places(alloc: Global, text: &str) -> Result<String, AllocError> {
    let mut out = String::new(alloc);
    let Ok(end) = u32::try_from(text.len()) else {
        return Ok(out);
    };
    if let Ok(tokens) = lex(alloc, text.as_bytes(), Span { start: 0, end }) {
        if let Ok(lets) = closed_lets(alloc, tokens.as_slice()) {
            for (at, closed) in lets.as_slice().iter().enumerate() {
                if *closed {
                    write!(out, "{at} ")?;
                }
            }
        } else {
            write!(out, "no memory")?;
        }
    }
    Ok(out)
}

fn check(rt: &impl Abort, alloc: Global) -> Result<(), Fail> {
    for (text, expected) in &CASES {
        let found = places(alloc, text)?;
        assert_eq!(rt; found.as_str(), *expected, "at {text:?}");
    }
    Ok(())
}

#[test]
fn lets_that_an_in_closes(rt: HostRuntime) -> Result<(), Fail> {
    check(&rt, rt.alloc())
}
