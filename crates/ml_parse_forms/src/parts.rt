//! Fields, arms and binds: parts of forms that are no expressions, over what is read.
ghost use Rattle.std.specs.Prelude.{◌≡◌, ◌≤◌, max, IfOk, IfErr};
ghost use Rattle.ml_cursor.specs.Says.{Says};
ghost use Rattle.ml_grammar.specs.Trees.{field, pun, arm, bind};

use crate::found::{Found, FoundExpr, deeper};
use ml_cursor::{ParseErr, refusal_at};
use ml_lexer::Token;
use ml_parse_patterns::{Found as FoundPat, FoundParams};
use ml_tree::{Arm, Bind, Expr, ExprKind, FieldExpr, TyExpr};
use oxml_base::Span;
use sqlite_items::Boxed;

/// `name = e`
pub fn field(name: Span, value: FoundExpr) -> Found<FieldExpr>
    ensures tree { result.tree ≡ field name value.tree }
    ensures depth { result.depth ≡ value.depth }
{
    Found {
        tree: FieldExpr {
            id: 0,
            name,
            expr: value.tree.into_inner(),
        },
        depth: value.depth,
    }
}

/// `name` alone, which means the name itself.
pub fn pun(tokens: &[Token], at: usize, name: Span, left: u32) -> Result<Found<FieldExpr>, ParseErr>
    ensures tree { IfOk result (λ f. f.tree ≡ pun name) }
    ensures depth { IfOk result (λ f. f.depth ≡ 1) }
    ensures small { IfOk result (λ f. f.depth ≤ left) }
    ensures err { IfErr result (Says tokens.now (left ≡ 0)) }
{
    if left == 0 {
        return Err(ParseErr::Refused(refusal_at(tokens, at)));
    }
    let expr = Expr {
        id: 0,
        span: name,
        kind: ExprKind::Name(name),
    };
    Ok(Found {
        tree: FieldExpr { id: 0, name, expr },
        depth: 1,
    })
}

/// What may be left out, without its box.
fn unboxed(found: Option<Boxed<Expr>>) -> Option<Expr>
    ensures { result ≡ found }
{
    match found {
        Some(expr) => Some(expr.into_inner()),
        None => None,
    }
}

/// `pattern [when e] -> e`, the guard and the body as a pair.
pub fn arm(pat: FoundPat, action: Found<(Option<Boxed<Expr>>, Boxed<Expr>)>) -> Found<Arm>
    ensures tree { result.tree ≡ arm pat.pat action.tree.0 action.tree.1 }
    ensures depth { result.depth ≡ max pat.depth action.depth }
{
    let depth = deeper(pat.depth, action.depth);
    let (guard, body) = action.tree;
    Found {
        tree: Arm {
            pat: pat.pat,
            guard: unboxed(guard),
            body: body.into_inner(),
        },
        depth,
    }
}

/// The type of a result, if it is written, and the value of a bind.
pub fn value(result_type: Option<TyExpr>, body: FoundExpr) -> Found<(Option<TyExpr>, Boxed<Expr>)>
    ensures tree { result.tree ≡ (result_type, body.tree) }
    ensures depth { result.depth ≡ body.depth }
{
    Found {
        tree: (result_type, body.tree),
        depth: body.depth,
    }
}

/// What a bind gives a value: a pattern, or a name with parameters.
#[derive(Drop)]
pub struct Target {
    pub pat: FoundPat,
    pub params: FoundParams,
}

/// `target [: type] = e`, the type and the value as a pair.
pub fn bind(target: Target, value: Found<(Option<TyExpr>, Boxed<Expr>)>) -> Found<Bind>
    ensures tree { result.tree ≡ bind target.pat.pat target.params.list value.tree.0 value.tree.1 }
    ensures depth { result.depth ≡ max target.pat.depth (max target.params.depth value.depth) }
{
    let Target { pat, params } = target;
    let depth = deeper(pat.depth, deeper(params.depth, value.depth));
    let (result, body) = value.tree;
    Found {
        tree: Bind {
            pat: pat.pat,
            params: params.list,
            result,
            body: body.into_inner(),
        },
        depth,
    }
}
