ghost use Rattle.std.specs.Prelude.{◌≡◌};
ghost use Rattle.std.specs.Option.{option_map};
ghost use Rattle.ml_meaning.specs.Comparing.{comparison};

use ml_tree::BinOp;
use std::cmp::Ordering;

/// Whether a comparison holds of two values that stand to one another so; `None` for an operator
/// that is no comparison.
pub fn comparison(op: BinOp, order: Ordering) -> Option<bool>
    ensures { result ≡ option_map (λ test. test order) (comparison op) }
{
    match op {
        BinOp::Eq => Some(order.is_eq()),
        BinOp::Ne => Some(order.is_ne()),
        BinOp::Lt => Some(order.is_lt()),
        BinOp::Gt => Some(order.is_gt()),
        BinOp::Le => Some(order.is_le()),
        BinOp::Ge => Some(order.is_ge()),
        _ => None,
    }
}
