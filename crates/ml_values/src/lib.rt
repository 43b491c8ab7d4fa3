//! Values and what is done with them in one step: operations, operators, and the events that are told.
#![tactic(auto)]

mod operations;
#[cfg(test)]
mod tests;
mod told;
mod tools;
mod value;

pub use operations::{Given, negated, operate, operator, truth};
pub use told::{Failure, Mode, close, fail, leave, made};
pub use tools::Tools;
pub use value::{Bound, Code, Env, Pair, Word, Words, and, bind, count, local, word_at};
