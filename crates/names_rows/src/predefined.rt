//! Each predefined name: what it stands for, and that it may be shadowed.
use crate::reading::Case;
use crate::targets::check_target;
use std::alloc::Global;
use std::process::Abort;
use std::test::Fail;

/// The predefined values, with what they stand for: an operation, or the binder of a built-in
/// definition.
const VALUES: [Case; 16] = [
    ("print_string", "pPrintString"),
    ("print_int", "pPrintInt"),
    ("print_char", "pPrintChar"),
    ("prerr_string", "pPrerrString"),
    ("string_of_int", "pStringOfInt"),
    ("int_of_char", "pIntOfChar"),
    ("char_of_int", "pCharOfInt"),
    ("exit", "pExit"),
    ("failwith", "pFailwith"),
    ("not", "b1"),
    ("fst", "b8"),
    ("snd", "b14"),
    ("ignore", "b20"),
    ("print_newline", "b24"),
    ("print_endline", "b30"),
    ("append__", "b40"),
];

/// The predefined types, with their declarations.
const TYPES: [Case; 7] = [
    ("int", "d0"),
    ("char", "d1"),
    ("string", "d2"),
    ("bool", "d3"),
    ("unit", "d4"),
    ("list", "d5"),
    ("option", "d6"),
];

/// The predefined constructors that have names.
const CONSTRUCTORS: [Case; 2] = [("None", "None"), ("Some", "Some 1")];

/// Whether the source around `name` has the expected references.
fn check_around(
    rt: &impl Abort,
    alloc: Global,
    parts: (&str, &str, &str),
    name: &str,
    expected: &str,
) -> Result<(), Fail> {
    let (before, between, behind) = parts;
    let file = format!(in alloc; "{before}{name}{between}{name}{behind}")?;
    check_target(rt, alloc, file.as_str(), expected)
}

#[test]
fn values(rt: HostRuntime) -> Result<(), Fail> {
    let alloc = rt.alloc();
    for (name, target) in VALUES {
        let plain = format!(in alloc; "let a = {name}")?;
        let found = format!(in alloc; "2:{target} /")?;
        check_target(&rt, alloc, plain.as_str(), found.as_str())?;
        check_around(
            &rt,
            alloc,
            ("let ", " x = x let a = ", ""),
            name,
            "3:l2 6:t1 /",
        )?;
        check_around(&rt, alloc, ("let f ", " = ", ""), name, "3:l2 /")?;
        check_around(&rt, alloc, ("let a = let ", " = 1 in ", ""), name, "5:l3 /")?;
    }
    Ok(())
}

#[test]
fn types(rt: HostRuntime) -> Result<(), Fail> {
    let alloc = rt.alloc();
    for (name, target) in TYPES {
        let plain = format!(in alloc; "let f (x : {name}) = x")?;
        let found = format!(in alloc; "4:l3 /0:{target}")?;
        check_target(&rt, alloc, plain.as_str(), found.as_str())?;
        let shadowed = ("type ", " = A let f (x : ", ") = x");
        check_around(&rt, alloc, shadowed, name, "5:l4 /0:d7")?;
    }
    Ok(())
}

#[test]
fn constructors(rt: HostRuntime) -> Result<(), Fail> {
    let alloc = rt.alloc();
    for (place, (name, use_of)) in [("0", CONSTRUCTORS[0]), ("1", CONSTRUCTORS[1])] {
        let plain = format!(in alloc; "let a = {use_of}")?;
        let found = format!(in alloc; "2:c6.{place} /")?;
        check_target(&rt, alloc, plain.as_str(), found.as_str())?;
        check_around(&rt, alloc, ("type t = ", " let a = ", ""), name, "3:c7.0 /")?;
    }
    Ok(())
}
