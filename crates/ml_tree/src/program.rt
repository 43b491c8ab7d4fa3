use crate::expr::Bind;
use crate::types::Decl;
use oxml_base::{Items, Span};

/// A whole program. Spans count over the file's bytes followed by the prelude's.
///
/// The nodes are the items, patterns, expressions, `FieldPat`s and `FieldExpr`s.
#[derive(Drop)]
pub struct Program {
    pub items: Items<Item>,
    /// How many nodes there are; their numbers are those below it.
    pub nodes: u32,
    /// How many type expressions there are; their numbers are those below it.
    pub types: u32,
}

/// An item, a node of the tree.
#[derive(Drop)]
pub struct Item {
    pub id: u32,
    pub span: Span,
    pub kind: ItemKind,
}

#[derive(Drop)]
pub enum ItemKind {
    Types(Items<Decl>),
    Let { recursive: bool, binds: Items<Bind> },
}
