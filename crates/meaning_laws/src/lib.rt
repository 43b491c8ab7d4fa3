//! What programs of simple items mean: items that bind functions, and items that print a text.
#![tactic(auto)]

pub mod laws;
