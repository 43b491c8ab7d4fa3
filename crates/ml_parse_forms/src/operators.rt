ghost use Rattle.std.specs.Prelude.{◌≡◌, drop, Some};
ghost use Rattle.ml_grammar.specs.Looks.{binary, operator, of_level, operator_at, groups_left};
ghost use Rattle.ml_parse_forms.specs.Operators.{shown};

use ml_cursor::{Front, front_at, pass};
use ml_grammar::Joint;
use ml_lexer::Token;
use ml_tree::BinOp;

/// An operator between two operands.
#[derive(Clone, Copy, Debug, PartialEq, Eq)]
pub struct Operator {
    /// The tightest have the lowest.
    pub level: u8,
    pub joint: Joint,
}

/// The level of `::`. Level 0 is that of an operand.
pub const CONS_LEVEL: u8 = 4;

/// The level that holds all operators.
pub const LAST_LEVEL: u8 = 8;

/// Whether the operators of a level group to the left; the others group to the right.
#[tactic(auto, unfolding(ml_grammar::specs::Looks::groups_left))]
pub fn groups_left(level: u8) -> bool
    ensures { result ≡ groups_left level }
{
    level == 2 || level == 3 || level == 6
}

fn binary(level: u8, op: BinOp) -> Option<Operator>
    ensures { shown result ≡ binary level op }
{
    Some(Operator {
        level,
        joint: Joint::Binary(op),
    })
}

/// The operator with this sign or word.
pub fn operator_of(front: Front) -> Option<Operator>
    ensures { shown result ≡ operator front }
{
    match front {
        Front::Lsl => binary(1, BinOp::Lsl),
        Front::Lsr => binary(1, BinOp::Lsr),
        Front::Asr => binary(1, BinOp::Asr),
        Front::Star => binary(2, BinOp::Mul),
        Front::Slash => binary(2, BinOp::Div),
        Front::Mod => binary(2, BinOp::Mod),
        Front::Land => binary(2, BinOp::And),
        Front::Lor => binary(2, BinOp::Or),
        Front::Lxor => binary(2, BinOp::Xor),
        Front::Plus => binary(3, BinOp::Add),
        Front::Minus => binary(3, BinOp::Sub),
        Front::ColonColon => Some(Operator {
            level: CONS_LEVEL,
            joint: Joint::Pair,
        }),
        Front::At => binary(5, BinOp::Append),
        Front::Caret => binary(5, BinOp::Join),
        Front::Equal => binary(6, BinOp::Eq),
        Front::NotEqual => binary(6, BinOp::Ne),
        Front::Less => binary(6, BinOp::Lt),
        Front::Greater => binary(6, BinOp::Gt),
        Front::LessEqual => binary(6, BinOp::Le),
        Front::GreaterEqual => binary(6, BinOp::Ge),
        Front::AndAnd => binary(7, BinOp::BoolAnd),
        Front::OrOr => binary(8, BinOp::BoolOr),
        _ => None,
    }
}

/// What an operator makes of its operands, if it is of this level.
fn of_level(level: u8, found: Operator) -> Option<Joint>
    ensures { result ≡ of_level level (shown (Some found)) }
{
    if found.level == level {
        return Some(found.joint);
    }
    None
}

/// The operator of this level that stands at a place.
#[tactic(auto, unfolding(ml_grammar::specs::Looks::operator_at))]
pub fn operator_at(tokens: &[Token], at: usize, level: u8) -> Option<Joint>
    ensures { result ≡ operator_at level (drop at tokens.now) }
{
    match operator_of(front_at(tokens, at)) {
        Some(found) => of_level(level, found),
        None => None,
    }
}
