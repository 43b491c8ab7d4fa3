//! The syntax tree of the language, and its names once they are resolved.
#![tactic(auto)]

mod count;
mod depths;
mod expr;
mod pattern;
mod program;
mod reference;
mod scoped;
mod types;
mod words;

pub use count::nodes;
pub use depths::depth;
pub use expr::{Arm, BinOp, Bind, Expr, ExprKind, FieldExpr};
pub use pattern::{ConName, FieldPat, Param, Pat, PatKind};
pub use program::{Item, ItemKind, Program};
pub use reference::{Op, Ref, TyRef};
pub use scoped::Scoped;
pub use types::{Arg, ConDecl, Decl, DeclBody, FieldDecl, TyExpr, TyKind};
pub use words::{Aff, Loc, Uni, Words};
