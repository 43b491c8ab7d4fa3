//! Evaluates a resolved program by its pure meaning, with a stack of its own.
#![tactic(auto)]

mod evaluate;
mod items;
mod program;
mod tables;

pub use program::run;
