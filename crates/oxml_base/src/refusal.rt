use crate::rule::Rule;
use crate::span::Span;

/// A rule of the language that a source violates, with the place of the violation.
#[derive(Clone, Copy, Debug, PartialEq, Eq)]
pub struct Refusal {
    pub rule: Rule,
    pub span: Span,
}

/// A limit of the compiler that a source passed. Each count is the first number above the limit.
#[derive(Clone, Copy, Debug, PartialEq, Eq)]
pub enum Limit {
    /// Bytes of a source.
    Bytes(u64),
    /// Tokens of a source, up to its first lexical fault.
    Tokens(u64),
    /// Captures of all functions together.
    Captures(u64),
    /// Nodes of one type, written out as a tree.
    TypeSize(u64),
}
