use crate::pattern::{ConName, Param, Pat};
use crate::types::TyExpr;
use crate::words::Words;
use oxml_base::{Items, Lit, Span};
use sqlite_items::Boxed;

/// An operator between two operands. `::` and `,` are forms of their own.
#[derive(Clone, Copy, Debug, PartialEq, Eq)]
pub enum BinOp {
    Add,
    Sub,
    Mul,
    Div,
    Mod,
    And,
    Or,
    Xor,
    Lsl,
    Lsr,
    Asr,
    Eq,
    Ne,
    Lt,
    Gt,
    Le,
    Ge,
    /// `@`
    Append,
    /// `^`
    Join,
    BoolAnd,
    BoolOr,
}

/// An expression, a node of the tree.
#[cycle(expressions)]
#[derive(Drop)]
pub struct Expr {
    pub id: u32,
    pub span: Span,
    pub kind: ExprKind,
}

#[cycle(expressions)]
#[derive(Drop)]
pub enum ExprKind {
    Int(i64),
    Char(u8),
    Text(Lit),
    Name(Span),
    /// `Module.name`
    Path(Span, Span),
    Con {
        name: ConName,
        arg: Option<Boxed<Expr>>,
    },
    /// `a :: b`
    Cons(Boxed<Expr>, Boxed<Expr>),
    /// `a, b ..`, two parts or more.
    Tuple(Items<Expr>),
    /// `[a; b ..]`, one element or more.
    List(Items<Expr>),
    /// `{f = a; ..}`
    Fields(Items<FieldExpr>),
    /// `e.f`
    Field(Boxed<Expr>, Span),
    /// `s.[i]`
    Index(Boxed<Expr>, Boxed<Expr>),
    /// A function and its arguments, one or more.
    Apply(Boxed<Expr>, Items<Expr>),
    Binary(BinOp, Boxed<Expr>, Boxed<Expr>),
    /// `- e`
    Minus(Boxed<Expr>),
    If(Boxed<Expr>, Boxed<Expr>, Option<Boxed<Expr>>),
    Let {
        recursive: bool,
        binds: Items<Bind>,
        body: Boxed<Expr>,
    },
    /// `a; b ..`, two parts or more.
    Seq(Items<Expr>),
    Match(Boxed<Expr>, Items<Arm>),
    Fun(Items<Param>, Boxed<Expr>),
    Function(Items<Arm>),
    /// `(e)` and `begin e end`
    Paren(Boxed<Expr>),
    /// `(e : t)`
    Typed(Boxed<Expr>, TyExpr),
    /// `word e`
    Worded(Words, Boxed<Expr>),
    /// `exclave_ e`
    Exclave(Boxed<Expr>),
    /// `let borrow_ name = of in body`
    Borrow {
        name: Span,
        of: Span,
        body: Boxed<Expr>,
    },
    /// `overwrite_ name with con`
    Overwrite {
        name: Span,
        with_con: Boxed<Expr>,
    },
}

/// A field of a record expression, a node of the tree. `{f}` has the name `f` as its expression.
#[cycle(expressions)]
#[derive(Drop)]
pub struct FieldExpr {
    pub id: u32,
    pub name: Span,
    pub expr: Expr,
}

/// `pattern [when guard] -> body`
#[cycle(expressions)]
#[derive(Drop)]
pub struct Arm {
    pub pat: Pat,
    pub guard: Option<Expr>,
    pub body: Expr,
}

/// One binding of a `let`: a pattern, or a name with parameters, then the type of the result if it
/// is written, and what is bound.
#[cycle(expressions)]
#[derive(Drop)]
pub struct Bind {
    pub pat: Pat,
    pub params: Items<Param>,
    pub result: Option<TyExpr>,
    pub body: Expr,
}
