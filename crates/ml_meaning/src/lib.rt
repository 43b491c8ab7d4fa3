//! What a program means: a trace of events and how it ends, with no places, words of memory or
//! addresses.
#![tactic(auto)]

mod event;
mod laws;

pub use event::{Ending, Event};
pub use laws::more_fuel;
