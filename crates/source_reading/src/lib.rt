//! Reads a source to its resolved program, for the tests of the layers behind the names.
#![tactic(auto)]

mod reading;

pub use reading::{Answer, resolved};
