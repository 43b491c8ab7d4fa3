//! What a name in scope stands for.
use ml_tree::Ref;

/// What a name in scope stands for.
#[derive(Clone, Copy, Debug, PartialEq, Eq)]
pub struct Meaning {
    pub target: Ref,
    /// The declaration that the name belongs to; 0 for a value.
    pub declaration: u32,
    /// The place of a constructor or of a field in its declaration; 0 for other names.
    pub place: u32,
    /// How many fields a constructor takes, or the record of a field has; 0 for other names.
    pub parts: u32,
}
