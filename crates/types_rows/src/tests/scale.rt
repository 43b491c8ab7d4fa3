//! Large sources, which are answered in time.

use super::rows::{check_refused, check_typed};
use super::tables::large::{BINDERS, CHAIN, GREAT, ITEMS, LATE, USES};
use std::test::Fail;

#[test]
fn many_items(rt: HostRuntime) -> Result<(), Fail> {
    check_typed(&rt, rt.alloc(), &ITEMS)
}

#[test]
fn many_binders(rt: HostRuntime) -> Result<(), Fail> {
    check_typed(&rt, rt.alloc(), &BINDERS)?;
    check_typed(&rt, rt.alloc(), &CHAIN)
}

#[test]
fn many_uses(rt: HostRuntime) -> Result<(), Fail> {
    check_typed(&rt, rt.alloc(), &USES)
}

#[test]
fn great_types(rt: HostRuntime) -> Result<(), Fail> {
    check_typed(&rt, rt.alloc(), &GREAT)
}

#[test]
fn late_limit(rt: HostRuntime) -> Result<(), Fail> {
    check_refused(&rt, rt.alloc(), "TypeSize(2001)", &LATE)
}
