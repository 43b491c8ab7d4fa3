//! When values fit patterns, and what the names of the patterns then stand for.
#![tactic(auto)]

mod parts;
mod pattern;
#[cfg(test)]
mod tests;

pub use pattern::{fit_binds, fit_params, fits};
