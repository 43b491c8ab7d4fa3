//! What every layer of the compiler shares: places in a source, the rules and limits that a
//! refusal names, literals, and the traits through which the compiler meets the outside.
#![tactic(auto)]

mod errors;
mod file_shelf;
mod last_fault;
mod literal;
mod mem_shelf;
mod mem_sink;
mod outside;
mod refusal;
mod rule;
mod span;
mod std_sink;
#[cfg(test)]
mod tests;

pub use errors::{Failed, LoadErr, NoMemory, SaveErr};
pub use file_shelf::FileShelf;
pub use literal::{Lit, Place};
pub use mem_shelf::MemShelf;
pub use mem_sink::MemSink;
pub use outside::{Shelf, ShelfCall, Sink};
pub use refusal::{Limit, Refusal};
pub use rule::Rule;
pub use span::{Span, line_col};
pub use std_sink::StdSink;
/// The list of this project: a `Vec` that contracts see as the list of its elements.
pub use sqlite_items::Items;
