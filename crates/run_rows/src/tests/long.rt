//! A long loop.

use super::evaluation::evaluate;
use ml_meaning::Ending;
use std::test::Fail;

/// So many calls in tail position, one for each number from the first down to 0, each in the place
/// of the one before. They take no stack of the machine, but memory: the trace is kept, and so is
/// each value.
const CALLS: u64 = 1_000_000;

#[test]
fn long_loop(rt: HostRuntime) -> Result<(), Fail> {
    let alloc = rt.alloc();
    let first = CALLS - 1;
    let source = format!(in alloc;
        "let rec loop n = if n = 0 then exit 7 else loop (n - 1) let () = loop {first}"
    )?;
    let trace = evaluate(alloc, source.as_str(), CALLS)?;
    assert_eq!(rt; trace.ending, Ending::Exit(7));
    Ok(())
}
