//! Runs an image on the machine of the instruction table, with a list of the kernel's answers.
#![tactic(auto)]

mod put;
mod simulating;
#[cfg(test)]
mod tests;

pub use put::{Put, SimEnd};
pub use simulating::simulate;
