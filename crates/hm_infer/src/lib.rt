//! Inference: the equations of a program in their order, and the types that solve them.
#![tactic(auto)]

mod comparisons;
mod declared;
mod error;
mod items;
mod limit;
mod operations;
mod program;
mod rules;
mod run;
mod schemes;
mod sizes;
mod table;

pub use error::InferErr;
pub use program::infer;
