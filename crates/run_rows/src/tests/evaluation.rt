//! A source evaluated.

use ml_meaning::{Ending, Event};
use ml_run::run;
use source_reading::{Answer, resolved};
use std::alloc::Global;
use std::test::Fail;

/// The events of a program, those of the prelude's items first, and its end.
#[derive(Drop)]
pub struct Trace {
    pub events: Vec<Event>,
    pub ending: Ending,
}

/// The trace of a source at so much fuel.
pub fn evaluate(alloc: Global, source: &str, fuel: u64) -> Result<Trace, Fail> {
    let Answer::Found(scoped) = resolved(alloc, source.as_bytes())? else {
        return Err("refused")?;
    };
    let mut events = Vec::new(alloc);
    let ending = run(alloc, &scoped, fuel, &mut events)?;
    Ok(Trace { events, ending })
}
