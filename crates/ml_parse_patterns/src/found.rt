use ml_tree::{FieldPat, Param, Pat, TyExpr};
use oxml_base::Items;

/// A pattern that was read, and its depth.
#[derive(Drop)]
pub struct Found {
    pub pat: Pat,
    /// The greatest number of patterns on a path in it.
    pub depth: u32,
}

/// Patterns of a list, and the greatest of their depths.
#[derive(Drop)]
pub struct FoundList {
    pub list: Items<Pat>,
    pub depth: u32,
}

/// A field of a record pattern, and the depth of its pattern.
#[derive(Drop)]
pub struct FoundField {
    pub field: FieldPat,
    pub depth: u32,
}

/// The fields of a record pattern, whether `_` is its last part, and the greatest of the depths.
#[derive(Drop)]
pub struct FoundFields {
    pub list: Items<FieldPat>,
    pub more: bool,
    pub depth: u32,
}

/// A parameter that was read, and the depth of its pattern.
#[derive(Drop)]
pub struct FoundParam {
    pub param: Param,
    pub depth: u32,
}

/// Parameters, and the greatest of the depths of their patterns.
#[derive(Drop)]
pub struct FoundParams {
    pub list: Items<Param>,
    pub depth: u32,
}

/// A type that is written behind a pattern, and the place behind it.
#[derive(Drop)]
pub struct Annotation {
    pub ty: TyExpr,
    pub end: usize,
}
