//! The trace of each program of the tables.

use super::evaluation::evaluate;
use super::shown::shown;
use super::tables::Row;
use super::tables::blocks::{BLOCKS, REGIONS};
use super::tables::functions::{CALLS, FUNCTIONS};
use super::tables::operations::OPERATIONS;
use super::tables::operators::{COMPARISONS, NUMBERS};
use super::tables::patterns::{NAMES, PATTERNS};
use super::tables::prints::PRINTS;
use std::alloc::Global;
use std::process::Abort;
use std::test::Fail;

/// Each of the seven items of the prelude binds a function without captures: a call of an item of
/// one node, and a region in which nothing is made.
const PRELUDE: &str =
    "E68 ( ) L68 E68 ( ) L68 E68 ( ) L68 E68 ( ) L68 E68 ( ) L68 E68 ( ) L68 E68 ( ) L68 =0";

/// The events of the prelude: four for each of its items.
const PRELUDE_EVENTS: usize = 28;

/// Whether each program of a table has its trace.
fn check(rt: &impl Abort, alloc: Global, table: &[Row]) -> Result<(), Fail> {
    for (source, fuel, expected) in table {
        let trace = evaluate(alloc, source, *fuel)?;
        let found = shown(alloc, &trace, PRELUDE_EVENTS)?;
        assert_eq!(rt; found.as_str(), *expected, "at {source:?}");
    }
    Ok(())
}

#[test]
fn the_prelude(rt: HostRuntime) -> Result<(), Fail> {
    let empty = evaluate(rt.alloc(), "", 0)?;
    assert_eq!(rt; shown(rt.alloc(), &empty, 0)?.as_str(), PRELUDE);
    Ok(())
}

#[test]
fn output_and_operators(rt: HostRuntime) -> Result<(), Fail> {
    check(&rt, rt.alloc(), &PRINTS)?;
    check(&rt, rt.alloc(), &NUMBERS)?;
    check(&rt, rt.alloc(), &COMPARISONS)?;
    check(&rt, rt.alloc(), &OPERATIONS)
}

#[test]
fn functions_and_calls(rt: HostRuntime) -> Result<(), Fail> {
    check(&rt, rt.alloc(), &FUNCTIONS)?;
    check(&rt, rt.alloc(), &CALLS)
}

#[test]
fn blocks_and_patterns(rt: HostRuntime) -> Result<(), Fail> {
    check(&rt, rt.alloc(), &BLOCKS)?;
    check(&rt, rt.alloc(), &REGIONS)?;
    check(&rt, rt.alloc(), &PATTERNS)?;
    check(&rt, rt.alloc(), &NAMES)
}
