//! Readers of types, of mode words and of the declarations of types.
#![tactic(auto)]

mod decls;
pub mod laws;
mod looks;
mod make;
#[cfg(test)]
mod tests;
mod types;
mod words;

pub use decls::read_decls;
pub use looks::Row;
pub use types::{MAX_DEPTH, read_type};
pub use words::{ModeWord, mode_word, no_words, read_words};
