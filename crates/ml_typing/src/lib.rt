//! The types of a program's nodes, and what it means that they fit: the equations of each node, the
//! typings that meet them, and which of these is principal.
#![tactic(auto)]

mod crossing;
mod equation;
pub mod laws;
mod typed;

pub use crossing::Cross;
pub use equation::{Equation, Step, Term, Unknown};
pub use typed::Typed;
