use crate::types::TyExpr;
use crate::words::Words;
use oxml_base::{Items, Lit, Span};
use sqlite_items::Boxed;

/// What a constructor is called: a name, or one of the constants `true`, `false`, `()`, `[]`.
#[derive(Clone, Copy, Debug, PartialEq, Eq)]
pub enum ConName {
    Named(Span),
    True,
    False,
    Unit,
    Nil,
}

/// A pattern, a node of the tree.
#[cycle(patterns)]
#[derive(Drop)]
pub struct Pat {
    pub id: u32,
    pub span: Span,
    pub kind: PatKind,
}

#[cycle(patterns)]
#[derive(Drop)]
pub enum PatKind {
    /// `_`
    Any,
    /// A name that is bound, with the words before it and the span of the name alone.
    Name(Words, Span),
    Int(i64),
    Char(u8),
    Text(Lit),
    Con {
        name: ConName,
        arg: Option<Boxed<Pat>>,
    },
    /// `p :: q`
    Cons(Boxed<Pat>, Boxed<Pat>),
    /// `p, q ..`, two parts or more.
    Tuple(Items<Pat>),
    /// `[p; q ..]`, one part or more.
    List(Items<Pat>),
    /// `{f = p; ..}`; `rest` where the last part is `_`.
    Fields {
        list: Items<FieldPat>,
        rest: bool,
    },
    /// `p | q`
    Or(Boxed<Pat>, Boxed<Pat>),
    /// `p as name`
    Named(Boxed<Pat>, Span),
    /// `(p : t)`
    Typed(Boxed<Pat>, TyExpr),
    /// `(p)`
    Paren(Boxed<Pat>),
}

/// A field of a record pattern, a node of the tree.
#[cycle(patterns)]
#[derive(Drop)]
pub struct FieldPat {
    pub id: u32,
    pub name: Span,
    pub pat: Pat,
}

/// A parameter of a function: its pattern, with the words that stand before it in parentheses.
#[derive(Drop)]
pub struct Param {
    pub words: Words,
    pub pat: Pat,
}
