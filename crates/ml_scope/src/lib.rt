//! The scope of names: what each use of a name stands for.
#![tactic(auto)]

mod binder;
mod binding;
mod captures;
mod declarations;
mod expressions;
mod found;
mod free;
mod functions;
mod items;
mod journal;
mod known;
mod meaning;
mod offences;
mod patterns;
mod references;
mod scope;
mod scoping;
mod shape;
#[cfg(test)]
mod tests;
mod types;
mod uses;
mod world;

pub use captures::MOST_CAPTURES;
pub use free::free_names;
pub use scoping::{ScopeErr, resolve};
