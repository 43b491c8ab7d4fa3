//! What a program declares, and where it names types: flat lists, in the order of the source.
#![tactic(auto)]

mod mentions;
mod outline;
#[cfg(test)]
mod tests;
mod written;

pub use mentions::Mention;
pub use outline::{Outline, item_declarations, outlines};
pub use written::annotations;
