//! Small sources: the rules, what is accepted, and what each name stands for.
use crate::accepted::{CONSTRUCTS, DECLARATIONS, FILES, PATTERNS, RECURSIVE, SHADOWING};
use crate::reading::{check, check_accepted};
use crate::refused::{
    BOUND_TWICE, FIELD_COUNTS, FIRST, LEFT_OUT, UNBOUND_AT_ITEMS, UNBOUND_CONSTRUCTORS,
    UNBOUND_TYPES, UNBOUND_VALUES,
};
use crate::targets::{PATTERN_TARGETS, TARGETS, TYPE_TARGETS, check_targets};
use std::test::Fail;

#[test]
fn unbound_names(rt: HostRuntime) -> Result<(), Fail> {
    check(&rt, rt.alloc(), &UNBOUND_VALUES)?;
    check(&rt, rt.alloc(), &UNBOUND_AT_ITEMS)?;
    check(&rt, rt.alloc(), &UNBOUND_CONSTRUCTORS)?;
    check(&rt, rt.alloc(), &UNBOUND_TYPES)
}

#[test]
fn other_rules(rt: HostRuntime) -> Result<(), Fail> {
    check(&rt, rt.alloc(), &BOUND_TWICE)?;
    check(&rt, rt.alloc(), &FIELD_COUNTS)?;
    check(&rt, rt.alloc(), &LEFT_OUT)?;
    check(&rt, rt.alloc(), &FIRST)
}

#[test]
fn accepted_sources(rt: HostRuntime) -> Result<(), Fail> {
    check_accepted(&rt, rt.alloc(), &RECURSIVE)?;
    check_accepted(&rt, rt.alloc(), &SHADOWING)?;
    check_accepted(&rt, rt.alloc(), &PATTERNS)?;
    check_accepted(&rt, rt.alloc(), &CONSTRUCTS)?;
    check_accepted(&rt, rt.alloc(), &DECLARATIONS)?;
    check_accepted(&rt, rt.alloc(), &FILES)
}

#[test]
fn what_names_stand_for(rt: HostRuntime) -> Result<(), Fail> {
    check_targets(&rt, rt.alloc(), &TARGETS)?;
    check_targets(&rt, rt.alloc(), &PATTERN_TARGETS)?;
    check_targets(&rt, rt.alloc(), &TYPE_TARGETS)
}
