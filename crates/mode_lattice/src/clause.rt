use oxml_base::{Items, Rule, Span};

/// One unknown of a program's modes, by its number. It is true or false.
#[derive(Clone, Copy, Debug, PartialEq, Eq)]
pub struct Bit(pub u32);

/// What a clause asks of a table of bits.
#[derive(Clone, Copy, Debug, PartialEq, Eq)]
pub enum Form {
    /// Where the first bit is true, the second is true.
    Imply(Bit, Bit),
    /// The bit is true.
    Force(Bit),
    /// The bit is false.
    Forbid(Bit),
}

/// A form with the rule of the language that it comes from, and the place in the source which a
/// refusal by that rule names.
#[derive(Clone, Copy, Debug, PartialEq, Eq)]
pub struct Clause {
    pub rule: Rule,
    pub span: Span,
    pub form: Form,
}

/// The clauses of a program in the order in which they are asked, over the bits numbered below
/// `bits`.
#[derive(Debug, Drop)]
pub struct ClauseList {
    pub bits: u32,
    pub list: Items<Clause>,
}
