//! Numbers for the nodes and the type expressions of a program.
#![tactic(auto)]

mod expr;
mod next;
mod pattern;
mod program;
#[cfg(test)]
mod tests;
mod types;

pub use program::number;
