//! The functions of a program: for each the names that it captures, its parameters, its body and
//! what a call of it weighs.
#![tactic(auto)]

mod collect;
mod function;
mod gather;
mod marks;
#[cfg(test)]
mod tests;
mod weights;

pub use collect::functions;
pub use function::{Body, Function, Functions};
pub use weights::weighed_binds;
