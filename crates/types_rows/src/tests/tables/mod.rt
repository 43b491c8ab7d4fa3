//! Small sources with what inference answers for them, by the kind of what they show.

pub mod annotations;
pub mod clashes;
pub mod comparisons;
pub mod cycles;
pub mod declared;
pub mod expressions;
pub mod inside;
pub mod items;
pub mod large;
pub mod patterns;
pub mod predefined;
pub mod sizes;

/// A source, and the types of the names that it binds, in the order of their places.
pub type Row = (&'static str, &'static str);
