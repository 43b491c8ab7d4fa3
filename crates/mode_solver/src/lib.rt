//! Decides whether a table of bits obeys a list of clauses, and gives the least and the greatest
//! such table, or the first clause that leaves none and a path of clauses which shows it.
#![tactic(auto)]

mod error;
mod implications;
mod reach;
mod search;
mod solution;
#[cfg(test)]
mod tests;
mod turn;

pub use error::ModeErr;
pub use solution::solve;
