use crate::words::Words;
use oxml_base::{Items, Span};
use sqlite_items::Boxed;

/// A type expression. Type expressions have numbers of their own, and are no nodes.
#[cycle(types)]
#[derive(Drop)]
pub struct TyExpr {
    pub id: u32,
    pub span: Span,
    pub kind: TyKind,
}

#[cycle(types)]
#[derive(Drop)]
pub enum TyKind {
    /// A type variable, with the span of its quote and name.
    Var(Span),
    /// A name with its arguments, which stand before it: `int`, `(int, 'a) t`.
    Con { name: Span, args: Items<TyExpr> },
    /// `t * u ..`, two parts or more.
    Tuple(Items<TyExpr>),
    /// `t -> u`, each side with its words.
    Arrow { from: Boxed<Arg>, to: Boxed<Arg> },
}

/// A type with the words that stand before it.
#[cycle(types)]
#[derive(Drop)]
pub struct Arg {
    pub words: Words,
    pub ty: TyExpr,
}

/// One declaration: `[vars] name = body`.
#[derive(Drop)]
pub struct Decl {
    pub name: Span,
    pub vars: Items<Span>,
    pub body: DeclBody,
}

#[derive(Drop)]
pub enum DeclBody {
    Variant(Items<ConDecl>),
    Fields(Items<FieldDecl>),
    Alias(TyExpr),
}

/// A constructor with its fields: `Name of arg * arg`.
#[derive(Drop)]
pub struct ConDecl {
    pub name: Span,
    pub args: Items<Arg>,
}

/// A field of a record: `words name : type`.
#[derive(Drop)]
pub struct FieldDecl {
    pub name: Span,
    pub arg: Arg,
}
