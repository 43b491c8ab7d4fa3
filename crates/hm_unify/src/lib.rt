//! Unification: bindings of type variables, and one call that makes pairs of types equal. It gives
//! most general solutions; where there is none it says whether even infinite types would not help.
#![tactic(auto)]

mod bindings;
mod bound;
mod classes;
mod closure;
mod error;
mod judge;
mod measure;
mod node;
mod refusal;
mod tables;
#[cfg(test)]
mod tests;
mod walk;

pub use bindings::Bindings;
pub use error::UnifyErr;
