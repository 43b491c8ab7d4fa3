//! The parser: from the tokens of a source to its syntax tree, by recursive descent.
#![tactic(auto)]

mod arms;
mod atom;
mod bind;
mod expression;
mod item;
mod list;
mod operand;
mod overwrite;
mod prelude;
mod program;
mod record;
mod simple;

pub use ml_cursor::ParseErr;
pub use prelude::PRELUDE;
pub use program::parse;
