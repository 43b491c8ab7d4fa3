use oxml_base::{Limit, Refusal};

/// Why a text has no list of tokens.
#[derive(Clone, Copy, Debug, PartialEq, Eq)]
pub enum LexErr {
    /// The first fault of the text, by rules 1 to 5.
    Refused(Refusal),
    /// More tokens than the compiler takes stand before the first fault or the end.
    Limit(Limit),
    NoMemory,
}
