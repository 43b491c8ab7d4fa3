//! Small sources with what is read from them, worked out by hand from the grammar.

pub mod applied;
pub mod atoms;
pub mod items;
pub mod open_forms;
pub mod operators;
pub mod patterns;
pub mod refused;
pub mod spans;
pub mod types;

/// A source, and its tree or its refusal, in the notation of `tree_text`.
pub type Case = (&'static str, &'static str);
