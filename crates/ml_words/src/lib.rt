//! What an evaluation reads off numbers, texts and names: the arithmetic of 63 bits, comparisons,
//! the sizes and bytes of texts, and what the nodes of a program name.
#![tactic(auto)]

mod compare;
mod names;
mod number;
mod text;

pub use compare::comparison;
pub use names::{constructor_place, field_place, operation, operation_arity, target};
pub use number::{arithmetic, wrapped};
pub use text::{byte_at, byte_of, decimal, join, text_order, text_words};
