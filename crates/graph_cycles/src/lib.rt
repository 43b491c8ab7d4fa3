//! Which nodes of a directed graph lie on a cycle.
#![tactic(auto)]

mod certificate;
mod cycles;
mod groups;
#[cfg(test)]
mod tests;
mod walk;

pub use cycles::on_cycles;
