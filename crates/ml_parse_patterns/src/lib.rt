//! Patterns and parameters of functions: tokens as trees.
#![tactic(auto)]

mod found;
pub mod laws;
mod levels;
mod lists;
mod looks;
mod nodes;
mod params;
mod simple;
#[cfg(test)]
mod tests;

pub use found::{Found, FoundParam, FoundParams};
pub use levels::read_pattern;
pub use looks::begins_param;
pub use params::{read_param, read_params};
