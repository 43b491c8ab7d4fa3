//! The limit of captures: 100,000 of all functions together.
use crate::reading::words_of;
use std::alloc::{AllocError, Global};
use std::fmt::Write;
use std::process::Abort;
use std::test::Fail;

/// What `resolve` answers above the limit.
pub const ABOVE: &str = "Captures(100001)";

/// How many names each of the functions captures.
const NAMES: u32 = 1_000;

/// A thing so many times.
pub fn push_times(text: &mut String, thing: &str, count: u32) -> Result<(), AllocError> {
    for _ in 0..count {
        text.push_str(thing)?;
    }
    Ok(())
}

/// The names a0, a1 .. each between two texts.
fn push_names(text: &mut String, before: &str, behind: &str) -> Result<(), AllocError> {
    for n in 0..NAMES {
        write!(text, "{before}a{n}{behind}")?;
    }
    Ok(())
}

/// A way to write functions in one another: what stands before and behind the inner function.
type Nest = (&'static str, &'static str);

/// A way to use names: what stands before and behind each.
type Use = (&'static str, &'static str);

/// A function of a list of 1,000 names: what it does first, and then `count` functions in one another,
/// the innermost of which uses each name.
pub fn capturing(
    alloc: Global,
    first: &str,
    nest: Nest,
    count: u32,
    one: Use,
) -> Result<String, AllocError> {
    let mut file = String::new(alloc);
    let (open, close) = nest;
    let (before, behind) = one;
    file.push_str("let f l = match l with [")?;
    push_names(&mut file, "", "; ")?;
    write!(file, "] -> {first}")?;
    push_times(&mut file, open, count)?;
    file.push('[')?;
    push_names(&mut file, before, behind)?;
    file.push(']')?;
    push_times(&mut file, close, count)?;
    Ok(file)
}

/// Each form of a function.
const NESTS: [Nest; 6] = [
    ("fun _ -> ", ""),
    ("function _ -> ", ""),
    ("let g _ = ", " in g"),
    ("let rec g _ = ", " in g"),
    ("let rec g = fun _ -> ", " in g"),
    ("(fun _ -> ", ")"),
];

/// Each form of a use: a name, a borrow, an overwrite.
const USES: [Use; 5] = [
    ("", "; "),
    ("print_int ", "; "),
    ("(let borrow_ y = ", " in y); "),
    ("(overwrite_ ", " with Some 1); "),
    ("(match 1 with 1 when ", " -> 2); "),
];

/// Whether a hundred functions have exactly as many captures as may be, and one more has too many.
fn check_limit(rt: &impl Abort, alloc: Global, nest: Nest, one: Use) -> Result<(), Fail> {
    for (count, expected) in [(100, "ok"), (101, ABOVE)] {
        let file = capturing(alloc, "", nest, count, one)?;
        let found = words_of(alloc, file.as_str())?;
        assert_eq!(rt; found.as_str(), expected, "{count} at {nest:?} {one:?}");
    }
    Ok(())
}

#[test]
fn limit_at_each_place(rt: HostRuntime) -> Result<(), Fail> {
    for nest in NESTS {
        check_limit(&rt, rt.alloc(), nest, USES[0])?;
    }
    for one in USES {
        check_limit(&rt, rt.alloc(), NESTS[0], one)?;
    }
    Ok(())
}

/// Expressions with no capture.
const NONE: [&str; 9] = [
    "(fun x -> x)",
    "(fun _ -> print_int)",
    "(fun _ -> not)",
    "(fun _ -> let x = 1 in x)",
    "(fun _ -> match 1 with x -> x)",
    "(let x = 1 in x)",
    "(let rec h x = h x in h)",
    "(let rec h = fun x -> h x in h)",
    "(let rec h = (function x -> h x) in h)",
];

/// Expressions with one capture or more.
const SOME: [&str; 9] = [
    "(fun _ -> a0)",
    "(fun _ -> a0; a0)",
    "(fun _ -> l)",
    "(fun x -> fun _ -> x)",
    "(let h x = x in fun _ -> h)",
    "(let rec h x = fun _ -> h x in h)",
    "(let rec h _ = h l in h)",
    "(let x = 1 in let h _ = x in h)",
    "(let borrow_ y = l in fun _ -> y)",
];

/// Whether an expression beside a hundred functions, that have as many captures as may be, gives
/// this answer.
fn check_beside(rt: &impl Abort, alloc: Global, extra: &str, expected: &str) -> Result<(), Fail> {
    let first = format!(in alloc; "{extra}; ")?;
    let file = capturing(alloc, first.as_str(), NESTS[0], 100, USES[0])?;
    let found = words_of(alloc, file.as_str())?;
    assert_eq!(rt; found.as_str(), expected, "at {extra:?}");
    Ok(())
}

#[test]
fn what_is_a_capture(rt: HostRuntime) -> Result<(), Fail> {
    for extra in NONE {
        check_beside(&rt, rt.alloc(), extra, "ok")?;
    }
    for extra in SOME {
        check_beside(&rt, rt.alloc(), extra, ABOVE)?;
    }
    Ok(())
}
