//! What a walk over a program finds.
use ml_tree::Ref;
use oxml_base::{Refusal, Span};

/// One thing that a walk over a program finds. The things of a node stand before those of its parts.
#[derive(Clone, Copy, Debug, PartialEq, Eq)]
pub enum Found {
    /// The node of this number names something.
    Names(u32, Ref),
    /// The type expression of this number names a declaration.
    NamesType(u32, u32),
    /// The type expression of this number is a type variable, with the span of its name.
    Variable(u32, Span),
    /// Here the type variables of another item or declaration begin.
    Anew,
    /// A declaration lists a type variable.
    Lists(Span),
    /// A rule of scope is violated.
    Offends(Refusal),
    /// The function that begins next is what the recursive binder of this number names.
    Itself(u32),
    /// A function begins, at the node of this number.
    Opens(u32),
    /// The innermost function that has begun ends.
    Closes,
}
