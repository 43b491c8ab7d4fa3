//! Forms that a bracket closes: the tokens that end them, and their nodes.
ghost use Rattle.std.specs.Prelude.{◌≡◌, ◌≢◌, ◌+◌, ◌<◌, ◌-◌, ◌^◌, drop, max, IfOk, IfErr};
ghost use Rattle.ml_tree.specs.declared.expr.ExprKind.{ExprKind};
ghost use Rattle.ml_cursor.specs.declared.front.Front.{Front};
ghost use Rattle.ml_cursor.specs.Fronts.{front};
ghost use Rattle.ml_cursor.specs.Places.{first_span};
ghost use Rattle.ml_cursor.specs.Says.{Says};
ghost use Rattle.ml_grammar.specs.Trees.{node, start_of};
ghost use Rattle.ml_grammar.specs.Readings.{ClosesParens, NotClosed};

use crate::found::{Found, FoundExpr, Head, deeper, expect, joined, node};
use crate::target::read_whole_type;
use ml_cursor::{Front, ParseErr, stands};
use ml_lexer::Token;
use ml_tree::{Expr, ExprKind, FieldExpr};
use oxml_base::Items;
use std::alloc::Global;

/// What was found, with the `.name` that stands behind it.
pub fn field_of(
    alloc: Global,
    tokens: &[Token],
    at: &mut usize,
    found: FoundExpr,
) -> Result<FoundExpr, ParseErr>
    requires { found.depth < 2 ^ 32 - 1 }
    ensures tree { IfOk result (λ f. f.tree ≡ node (start_of found.tree) (first_span (drop 1 (drop at.old tokens.now))).end (ExprKind.Field found.tree (first_span (drop 1 (drop at.old tokens.now))))) }
    ensures depth { IfOk result (λ f. f.depth ≡ found.depth + 1) }
    ensures dot { IfOk result (λ f. front (drop at.old tokens.now) ≡ Front.Dot) }
    ensures name { IfOk result (λ f. front (drop 1 (drop at.old tokens.now)) ≡ Front.Lower) }
    ensures passed { IfOk result (λ f. drop at.new tokens.now ≡ drop 1 (drop 1 (drop at.old tokens.now))) }
    ensures err { IfErr result (Says tokens.now (front (drop at.old tokens.now) ≡ Front.Dot → front (drop 1 (drop at.old tokens.now)) ≡ Front.Lower → ⊥)) }
{
    expect(tokens, at, Front::Dot)?;
    let name = expect(tokens, at, Front::Lower)?;
    let span = joined(found.tree.get().span, name);
    let kind = ExprKind::Field(found.tree, name);
    Ok(node(alloc, span, kind, found.depth)?)
}

/// `e.[e]`, whose `]` stands at the place.
pub fn close_index(
    alloc: Global,
    tokens: &[Token],
    at: &mut usize,
    text: FoundExpr,
    index: FoundExpr,
) -> Result<FoundExpr, ParseErr>
    requires text { text.depth < 2 ^ 32 - 1 }
    requires index { index.depth < 2 ^ 32 - 1 }
    ensures tree { IfOk result (λ f. f.tree ≡ node (start_of text.tree) (first_span (drop at.old tokens.now)).end (ExprKind.Index text.tree index.tree)) }
    ensures depth { IfOk result (λ f. f.depth ≡ max text.depth index.depth + 1) }
    ensures stands { IfOk result (λ f. front (drop at.old tokens.now) ≡ Front.CloseBracket) }
    ensures passed { IfOk result (λ f. drop at.new tokens.now ≡ drop 1 (drop at.old tokens.now)) }
    ensures err { IfErr result (Says tokens.now (front (drop at.old tokens.now) ≢ Front.CloseBracket)) }
{
    let close = expect(tokens, at, Front::CloseBracket)?;
    let span = joined(text.tree.get().span, close);
    let depth = deeper(text.depth, index.depth);
    let kind = ExprKind::Index(text.tree, index.tree);
    Ok(node(alloc, span, kind, depth)?)
}

/// `[e; ..]`, whose `]` stands at the place.
pub fn close_list(
    alloc: Global,
    tokens: &[Token],
    at: &mut usize,
    head: Head,
    list: Found<Items<Expr>>,
) -> Result<FoundExpr, ParseErr>
    requires { list.depth < 2 ^ 32 - 1 }
    ensures tree { IfOk result (λ f. f.tree ≡ node head.span.start (first_span (drop at.old tokens.now)).end (ExprKind.List list.tree)) }
    ensures depth { IfOk result (λ f. f.depth ≡ list.depth + 1) }
    ensures stands { IfOk result (λ f. front (drop at.old tokens.now) ≡ Front.CloseBracket) }
    ensures passed { IfOk result (λ f. drop at.new tokens.now ≡ drop 1 (drop at.old tokens.now)) }
    ensures err { IfErr result (Says tokens.now (front (drop at.old tokens.now) ≢ Front.CloseBracket)) }
{
    let close = expect(tokens, at, Front::CloseBracket)?;
    let kind = ExprKind::List(list.tree);
    Ok(node(alloc, joined(head.span, close), kind, list.depth)?)
}

/// `{f = e; ..}`, whose `}` stands at the place.
pub fn close_record(
    alloc: Global,
    tokens: &[Token],
    at: &mut usize,
    head: Head,
    fields: Found<Items<FieldExpr>>,
) -> Result<FoundExpr, ParseErr>
    requires { fields.depth < 2 ^ 32 - 1 }
    ensures tree { IfOk result (λ f. f.tree ≡ node head.span.start (first_span (drop at.old tokens.now)).end (ExprKind.Fields fields.tree)) }
    ensures depth { IfOk result (λ f. f.depth ≡ fields.depth + 1) }
    ensures stands { IfOk result (λ f. front (drop at.old tokens.now) ≡ Front.CloseBrace) }
    ensures passed { IfOk result (λ f. drop at.new tokens.now ≡ drop 1 (drop at.old tokens.now)) }
    ensures err { IfErr result (Says tokens.now (front (drop at.old tokens.now) ≢ Front.CloseBrace)) }
{
    let close = expect(tokens, at, Front::CloseBrace)?;
    let kind = ExprKind::Fields(fields.tree);
    Ok(node(alloc, joined(head.span, close), kind, fields.depth)?)
}

/// `(e)` or `begin e end`, whose end stands at the place.
pub fn close_paren(
    alloc: Global,
    tokens: &[Token],
    at: &mut usize,
    close: Front,
    head: Head,
    inner: FoundExpr,
) -> Result<FoundExpr, ParseErr>
    requires { inner.depth < 2 ^ 32 - 1 }
    ensures tree { IfOk result (λ f. f.tree ≡ node head.span.start (first_span (drop at.old tokens.now)).end (ExprKind.Paren inner.tree)) }
    ensures depth { IfOk result (λ f. f.depth ≡ inner.depth + 1) }
    ensures stands { IfOk result (λ f. front (drop at.old tokens.now) ≡ close) }
    ensures passed { IfOk result (λ f. drop at.new tokens.now ≡ drop 1 (drop at.old tokens.now)) }
    ensures err { IfErr result (Says tokens.now (front (drop at.old tokens.now) ≢ close)) }
{
    let end = expect(tokens, at, close)?;
    let kind = ExprKind::Paren(inner.tree);
    Ok(node(alloc, joined(head.span, end), kind, inner.depth)?)
}

/// `(e)` or `(e : t)`, behind whose expression the place is.
#[tactic(auto, using(ml_grammar::proofs::Handed::takes, ml_grammar::proofs::Handed::parens_open, ml_grammar::proofs::Handed::parens_no_type, ml_grammar::proofs::Handed::parens_not_closed))]
pub fn close_parens(
    alloc: Global,
    tokens: &[Token],
    at: &mut usize,
    head: Head,
    inner: FoundExpr,
) -> Result<FoundExpr, ParseErr>
    requires { inner.depth < 2 ^ 32 - 1 }
    ensures depth { IfOk result (λ f. f.depth ≡ inner.depth + 1) }
    ensures closes { IfOk result (λ f. ClosesParens head.span.start inner.tree (drop at.old tokens.now) f.tree (drop at.new tokens.now)) }
    ensures err { IfErr result (Says tokens.now (NotClosed head.span.start inner.tree (drop at.old tokens.now))) }
{
    if !stands(tokens, *at, Front::Colon) {
        return Ok(close_paren(alloc, tokens, at, Front::CloseParen, head, inner)?);
    }
    expect(tokens, at, Front::Colon)?;
    let ty = read_whole_type(alloc, tokens, at)?;
    let close = expect(tokens, at, Front::CloseParen)?;
    let kind = ExprKind::Typed(inner.tree, ty);
    Ok(node(alloc, joined(head.span, close), kind, inner.depth)?)
}
