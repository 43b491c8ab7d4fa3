ghost use Rattle.std.specs.Prelude.{◌≡◌, ◌+◌, ◌-◌, ◌<◌, ◌≤◌, ◌≢◌, ◌^◌, ◌++◌, [], ◌∷◌, drop, max, Some, None, IfOk, IfErr};
ghost use Rattle.ml_cursor.specs.declared.error.ParseErr.{ParseErr};
ghost use Rattle.ml_cursor.specs.Fronts.{front};
ghost use Rattle.ml_cursor.specs.Places.{span, first_span};
ghost use Rattle.ml_cursor.specs.Says.{Says};
ghost use Rattle.ml_grammar.specs.Trees.{node};

use ml_cursor::{Front, ParseErr, accept, pass, refusal_at, span_at, stands};
use ml_lexer::Token;
use ml_tree::{Expr, ExprKind};
use oxml_base::{Items, Span};
use sqlite_items::Boxed;
use std::alloc::Global;

/// A tree that was read, or a list of trees, and how deep it is: the greatest number of expressions
/// and patterns on a path in it.
#[derive(Drop)]
pub struct Found<T> {
    pub tree: T,
    pub depth: u32,
}

/// An expression that was read. It lies in a box: the readers call one another as deep as the tree
/// is, and what each of them holds on the stack is then one address.
pub type FoundExpr = Found<Boxed<Expr>>;

/// From the start of one span to the end of another.
pub fn joined(first: Span, last: Span) -> Span
    ensures { result ≡ span first.start last.end }
{
    Span {
        start: first.start,
        end: last.end,
    }
}

/// The greater of two depths.
pub fn deeper(one: u32, other: u32) -> u32
    ensures { result ≡ max one other }
{
    one.max(other)
}

/// An expression over parts of this depth. Its number is given once the whole program is read.
pub fn node(alloc: Global, place: Span, kind: ExprKind, parts: u32) -> Result<FoundExpr, ParseErr>
    requires { parts < 2 ^ 32 - 1 }
    ensures tree { IfOk result (λ f. f.tree ≡ node place.start place.end kind) }
    ensures depth { IfOk result (λ f. f.depth ≡ parts + 1) }
    ensures err { IfErr result (λ e. e ≡ ParseErr.NoMemory) }
{
    let expr = Expr {
        id: 0,
        span: place,
        kind,
    };
    let tree = Boxed::new(alloc, expr)?;
    Ok(Found {
        tree,
        depth: parts + 1,
    })
}

/// Goes past this token, which has to stand at the place, and gives its span.
pub fn expect(tokens: &[Token], at: &mut usize, want: Front) -> Result<Span, ParseErr>
    ensures span { IfOk result (λ span. span ≡ first_span (drop at.old tokens.now)) }
    ensures stands { IfOk result (λ span. front (drop at.old tokens.now) ≡ want) }
    ensures passed { IfOk result (λ span. drop at.new tokens.now ≡ drop 1 (drop at.old tokens.now)) }
    ensures err { IfErr result (Says tokens.now (front (drop at.old tokens.now) ≢ want)) }
{
    if !stands(tokens, *at, want) {
        return Err(ParseErr::Refused(refusal_at(tokens, *at)));
    }
    let span = span_at(tokens, *at);
    pass(tokens, at);
    Ok(span)
}

/// The first token of a form: its span, and the depth that the parts of the form may have.
#[derive(Clone, Copy, Debug, PartialEq, Eq)]
pub struct Head {
    pub span: Span,
    pub below: u32,
}

/// Goes past the first token of a form that may have the depth `left`. Where that is none, the tree
/// would be too deep, and the token is refused.
pub fn open_form(tokens: &[Token], at: &mut usize, left: u32) -> Result<Head, ParseErr>
    ensures span { IfOk result (λ head. head.span ≡ first_span (drop at.old tokens.now)) }
    ensures below { IfOk result (λ head. head.below + 1 ≡ left) }
    ensures passed { IfOk result (λ head. drop at.new tokens.now ≡ drop 1 (drop at.old tokens.now)) }
    ensures err { IfErr result (Says tokens.now (left ≡ 0)) }
{
    if left == 0 {
        return Err(ParseErr::Refused(refusal_at(tokens, *at)));
    }
    let span = span_at(tokens, *at);
    pass(tokens, at);
    Ok(Head {
        span,
        below: left - 1,
    })
}

/// What was found, as a part of a node that may have the depth `left`.
pub fn as_part<T: Drop>(
    tokens: &[Token],
    at: usize,
    found: Found<T>,
    left: u32,
) -> Result<Found<T>, ParseErr>
    ensures same { IfOk result (λ f. f ≡ found) }
    ensures small { IfOk result (λ f. f.depth < left) }
    ensures err { IfErr result (Says tokens.now (left ≤ found.depth)) }
{
    if found.depth >= left {
        return Err(ParseErr::Refused(refusal_at(tokens, at)));
    }
    Ok(found)
}

/// What was found, where this token stands behind it, which is passed.
pub fn closed_by<T: Drop>(
    tokens: &[Token],
    at: &mut usize,
    end: Front,
    found: Found<T>,
) -> Result<Found<T>, ParseErr>
    ensures same { IfOk result (λ f. f ≡ found) }
    ensures stands { IfOk result (λ f. front (drop at.old tokens.now) ≡ end) }
    ensures passed { IfOk result (λ f. drop at.new tokens.now ≡ drop 1 (drop at.old tokens.now)) }
    ensures err { IfErr result (Says tokens.now (front (drop at.old tokens.now) ≢ end)) }
{
    if !accept(tokens, at, end) {
        return Err(ParseErr::Refused(refusal_at(tokens, *at)));
    }
    Ok(found)
}

/// What was found, where this token stands behind it.
pub fn before<T: Drop>(
    tokens: &[Token],
    at: usize,
    end: Front,
    found: Found<T>,
) -> Result<Found<T>, ParseErr>
    ensures same { IfOk result (λ f. f ≡ found) }
    ensures stands { IfOk result (λ f. front (drop at tokens.now) ≡ end) }
    ensures err { IfErr result (Says tokens.now (front (drop at tokens.now) ≢ end)) }
{
    if !stands(tokens, at, end) {
        return Err(ParseErr::Refused(refusal_at(tokens, at)));
    }
    Ok(found)
}

/// A list of nothing.
pub fn no_parts<T>(alloc: Global) -> Found<Items<T>>
    ensures tree { result.tree ≡ [] }
    ensures depth { result.depth ≡ 0 }
{
    Found {
        tree: Items::new(alloc),
        depth: 0,
    }
}

/// The list with one more at its end.
#[inline(never)]
pub fn with_part<T: Drop>(
    list: Found<Items<T>>,
    part: Found<T>,
) -> Result<Found<Items<T>>, ParseErr>
    ensures tree { IfOk result (λ f. f.tree ≡ list.tree ++ part.tree ∷ []) }
    ensures depth { IfOk result (λ f. f.depth ≡ max list.depth part.depth) }
    ensures err { IfErr result (λ e. e ≡ ParseErr.NoMemory) }
{
    let Found { mut tree, depth } = list;
    tree.push(part.tree)?;
    Ok(Found {
        tree,
        depth: deeper(depth, part.depth),
    })
}

/// The list of expressions with one more at its end.
pub fn with_expression(
    list: Found<Items<Expr>>,
    part: FoundExpr,
) -> Result<Found<Items<Expr>>, ParseErr>
    ensures tree { IfOk result (λ f. f.tree ≡ list.tree ++ part.tree ∷ []) }
    ensures depth { IfOk result (λ f. f.depth ≡ max list.depth part.depth) }
    ensures err { IfErr result (λ e. e ≡ ParseErr.NoMemory) }
{
    let expr = Found {
        tree: part.tree.into_inner(),
        depth: part.depth,
    };
    Ok(with_part(list, expr)?)
}

/// Two things that stand one behind the other.
pub fn pair<A, B>(first: Found<A>, second: Found<B>) -> Found<(A, B)>
    ensures tree { result.tree ≡ (first.tree, second.tree) }
    ensures depth { result.depth ≡ max first.depth second.depth }
{
    Found {
        tree: (first.tree, second.tree),
        depth: deeper(first.depth, second.depth),
    }
}

/// What may be left out, and is there.
pub fn just<T>(found: Found<T>) -> Found<Option<T>>
    ensures tree { result.tree ≡ Some found.tree }
    ensures depth { result.depth ≡ found.depth }
{
    Found {
        tree: Some(found.tree),
        depth: found.depth,
    }
}

/// What may be left out, and is not there.
pub fn nothing<T>() -> Found<Option<T>>
    ensures tree { result.tree ≡ None }
    ensures depth { result.depth ≡ 0 }
{
    Found {
        tree: None,
        depth: 0,
    }
}
