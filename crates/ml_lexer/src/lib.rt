//! The lexer: the bytes of a source as tokens (OCaml manual, lexical conventions).
#![tactic(auto)]

mod bytes;
mod comments;
mod errors;
pub mod laws;
mod lexer;
mod literals;
mod numbers;
mod pieces;
pub mod sign;
#[cfg(test)]
mod tests;
mod token;
pub mod word;
mod words;

pub use errors::LexErr;
pub use lexer::{MAX_TOKENS, lex};
pub use literals::text_bytes;
pub use token::{Token, TokenKind};
