//! Which steps are those of comparisons.
ghost use Rattle.std.specs.Prelude.{◌≡◌};
ghost use Rattle.ml_typing.specs.Written.{Names};
ghost use Rattle.ml_typing.specs.Steps.{expr_kind, operator};

use ml_tree::{BinOp, ExprKind};
use ml_typing::Unknown;

/// The type of the operands of a comparison, at the node of this number.
pub fn compared(n: u32, kind: &ExprKind) -> Option<Unknown>
    ensures { (names : Names) → result ≡ (expr_kind names kind.now).compared n }
{
    match kind {
        ExprKind::Binary(op, _, _) => operands(n, *op),
        ExprKind::Int(_) => None,
        ExprKind::Char(_) => None,
        ExprKind::Text(_) => None,
        ExprKind::Name(_) => None,
        ExprKind::Path(_, _) => None,
        ExprKind::Con { name: _, arg: _ } => None,
        ExprKind::Cons(_, _) => None,
        ExprKind::Tuple(_) => None,
        ExprKind::List(_) => None,
        ExprKind::Fields(_) => None,
        ExprKind::Field(_, _) => None,
        ExprKind::Index(_, _) => None,
        ExprKind::Apply(_, _) => None,
        ExprKind::Minus(_) => None,
        ExprKind::If(_, _, _) => None,
        ExprKind::Let {
            recursive: _,
            binds: _,
            body: _,
        } => None,
        ExprKind::Seq(_) => None,
        ExprKind::Match(_, _) => None,
        ExprKind::Fun(_, _) => None,
        ExprKind::Function(_) => None,
        ExprKind::Paren(_) => None,
        ExprKind::Typed(_, _) => None,
        ExprKind::Worded(_, _) => None,
        ExprKind::Exclave(_) => None,
        ExprKind::Borrow {
            name: _,
            of: _,
            body: _,
        } => None,
        ExprKind::Overwrite {
            name: _,
            with_con: _,
        } => None,
    }
}

/// The type of the operands of an operator that compares them.
fn operands(n: u32, op: BinOp) -> Option<Unknown>
    ensures { result ≡ (operator op).compares n }
{
    match op {
        BinOp::Eq | BinOp::Ne | BinOp::Lt | BinOp::Gt | BinOp::Le | BinOp::Ge => {
            Some(Unknown::Fresh(n, 0))
        }
        BinOp::Add
        | BinOp::Sub
        | BinOp::Mul
        | BinOp::Div
        | BinOp::Mod
        | BinOp::And
        | BinOp::Or
        | BinOp::Xor
        | BinOp::Lsl
        | BinOp::Lsr
        | BinOp::Asr
        | BinOp::Append
        | BinOp::Join
        | BinOp::BoolAnd
        | BinOp::BoolOr => None,
    }
}
