//! The types of one item's unknowns as bindings, and the types that terms stand for under them.
#![tactic(auto)]

mod counted;
mod ids;
mod instances;
mod lowering;
mod nodes;
mod solver;

pub use ids::Ids;
pub use instances::{Put, instance};
pub use lowering::type_of;
pub use solver::Solver;
