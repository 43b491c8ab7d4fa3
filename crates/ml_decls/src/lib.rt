//! The declarations of types: whether they are well formed, and the types that they declare.
#![tactic(auto)]

mod build;
mod checking;
mod cycles;
mod names;
mod offences;
mod predefined;
mod references;
mod table;
#[cfg(test)]
mod tests;

pub use checking::{DeclErr, check_decls};
