//! The evaluator's steps: into an expression, and on with the value that an expression gave.
#![tactic(auto)]

mod arms;
mod calls;
mod closures;
mod finish;
mod frame;
mod parts;
mod resumes;
mod visits;
mod world;

pub use arms::choose;
pub use closures::closure;
pub use frame::{Finish, Frame, Here, Next, Parts, Step, Then};
pub use resumes::resume;
pub use visits::visit;
pub use world::{World, Written};
