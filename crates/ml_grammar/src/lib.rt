//! The grammar of the language: which syntax tree a list of tokens is, as a relation with its laws.
//!
//! The readers that make the tree stand on it.
#![tactic(auto)]

pub mod laws;
mod looks;

pub use looks::{AtomLead, ItemLead, Joint, Lead, Leaf, ListKind, Suffix};
