//! What the parser of expressions is made of: the looks at the next tokens, the nodes of the tree, the
//! tokens that open and close a form, and the forms that have no expression in them.
#![tactic(auto)]

pub mod begins;
pub mod brackets;
pub mod forms;
pub mod found;
pub mod leaf;
pub mod lists;
pub mod make;
pub mod operators;
pub mod parts;
pub mod source;
pub mod target;
