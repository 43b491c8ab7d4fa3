//! The equations of a program in their order: the steps of each item, and the names that it binds.
#![tactic(auto)]

mod applications;
mod bind_rows;
mod binders;
mod comparisons;
mod expression_rows;
mod expressions;
mod items;
mod matches;
mod pattern_rows;
mod patterns;
mod rows;
mod terms;
mod written;

pub use binders::item_binders;
pub use items::item_steps;
