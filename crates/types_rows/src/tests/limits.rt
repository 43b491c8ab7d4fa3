//! The limit of a type's size.

use super::rows::{check_refused, check_typed};
use super::tables::sizes::{
    BEFORE_RULES, BORROWED, CLASHES, COMPARISONS, CYCLES, DECLARED, DECLARED_WITHIN, DOUBLED,
    FUNCTIONS, GROWN_WITHIN, LITERAL_WITHIN, LITERALS, OLDER, PATTERNS, WRITTEN,
};
use std::test::Fail;

/// What stands before the place of a limit.
const LIMIT: &str = "TypeSize(2001)";

#[test]
fn largest_literals(rt: HostRuntime) -> Result<(), Fail> {
    check_typed(&rt, rt.alloc(), &LITERAL_WITHIN)
}

#[test]
fn largest_grown(rt: HostRuntime) -> Result<(), Fail> {
    check_typed(&rt, rt.alloc(), &GROWN_WITHIN)?;
    check_typed(&rt, rt.alloc(), &DECLARED_WITHIN)
}

#[test]
fn too_large_literals(rt: HostRuntime) -> Result<(), Fail> {
    check_refused(&rt, rt.alloc(), LIMIT, &LITERALS)
}

#[test]
fn too_large_parts(rt: HostRuntime) -> Result<(), Fail> {
    check_refused(&rt, rt.alloc(), LIMIT, &WRITTEN)?;
    check_refused(&rt, rt.alloc(), LIMIT, &DECLARED)?;
    check_refused(&rt, rt.alloc(), LIMIT, &PATTERNS)
}

#[test]
fn too_large_doubled(rt: HostRuntime) -> Result<(), Fail> {
    check_refused(&rt, rt.alloc(), LIMIT, &DOUBLED)
}

#[test]
fn too_large_later(rt: HostRuntime) -> Result<(), Fail> {
    check_refused(&rt, rt.alloc(), LIMIT, &OLDER)?;
    check_refused(&rt, rt.alloc(), LIMIT, &BORROWED)
}

#[test]
fn too_large_functions(rt: HostRuntime) -> Result<(), Fail> {
    check_refused(&rt, rt.alloc(), LIMIT, &FUNCTIONS)
}

#[test]
fn limits_before_rules(rt: HostRuntime) -> Result<(), Fail> {
    check_refused(&rt, rt.alloc(), LIMIT, &BEFORE_RULES)
}

#[test]
fn rules_before_limits(rt: HostRuntime) -> Result<(), Fail> {
    check_refused(&rt, rt.alloc(), "40", &CLASHES)?;
    check_refused(&rt, rt.alloc(), "41", &CYCLES)?;
    check_refused(&rt, rt.alloc(), "42", &COMPARISONS)
}
