//! Modes as a lattice, and the clauses on bits by which the modes of a program are decided.
#![tactic(auto)]

mod clause;
mod lattice;
mod locality;
mod mode;
mod table;
#[cfg(test)]
mod tests;

pub use clause::{Bit, Clause, ClauseList, Form};
pub use lattice::Lattice;
pub use locality::{boundaries, exclave, inwards, outwards};
pub use mode::Mode;
pub use table::{Solved, Table};
