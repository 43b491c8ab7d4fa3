ghost use Rattle.std.specs.Prelude.{◌≡◌, ◌+◌, ◌^◌, ◌<◌, max, drop, IfOk};
ghost use Rattle.ml_cursor.specs.Says.{IsRefusal};
ghost use Rattle.ml_tree.specs.declared.pattern.ConName.TheVariants.{Named as ConNamed};
ghost use Rattle.ml_tree.specs.declared.pattern.PatKind.TheVariants as Kind;
ghost use Rattle.ml_parse_patterns.specs.Looks.{node, leaf_kind};
ghost use Rattle.ml_parse_patterns.specs.Readings.{IsNode};

use crate::found::Found;
use crate::looks::Leaf;
use ml_cursor::{extent, refusal_at};
use ml_lexer::Token;
use ml_parse_types::no_words;
use ml_tree::{ConName, FieldPat, Pat, PatKind, TyExpr};
use oxml_base::{Items, Refusal, Span};
use sqlite_items::Boxed;
use std::alloc::{AllocError, Global};

/// What a leaf is.
pub fn leaf_kind(leaf: Leaf) -> PatKind
    ensures { result ≡ leaf_kind leaf }
{
    match leaf {
        Leaf::Any => PatKind::Any,
        Leaf::Bound(name) => PatKind::Name(no_words(), name),
        Leaf::Int(value) => PatKind::Int(value),
        Leaf::Char(byte) => PatKind::Char(byte),
        Leaf::Con(name) => PatKind::Con { name, arg: None },
    }
}

/// A node of the tokens from one place up to another. All nodes have the number 0 until the program is
/// numbered.
pub fn node(tokens: &[Token], from: usize, to: usize, kind: PatKind) -> Pat
    ensures { result ≡ node (drop from tokens.now) (drop to tokens.now) kind }
{
    Pat {
        id: 0,
        span: extent(tokens, from, to),
        kind,
    }
}

/// The refusal at a place where a pattern that was read cannot go on.
pub fn give_up(tokens: &[Token], at: usize, _found: Found) -> Refusal
    ensures { IsRefusal tokens.now result }
{
    refusal_at(tokens, at)
}

/// `(p)`
pub fn paren(
    alloc: Global,
    tokens: &[Token],
    from: usize,
    to: usize,
    inner: Found,
) -> Result<Found, AllocError>
    requires { inner.depth + 1 < 2 ^ 32 }
    ensures { IfOk result (IsNode (drop from tokens.now) (drop to tokens.now) (Kind.Paren inner.pat) (inner.depth + 1)) }
{
    let depth = inner.depth + 1;
    let boxed = Boxed::new(alloc, inner.pat)?;
    Ok(Found {
        pat: node(tokens, from, to, PatKind::Paren(boxed)),
        depth,
    })
}

/// `p : t`
pub fn typed(
    alloc: Global,
    tokens: &[Token],
    from: usize,
    to: usize,
    inner: Found,
    ty: TyExpr,
) -> Result<Found, AllocError>
    requires { inner.depth + 1 < 2 ^ 32 }
    ensures { IfOk result (IsNode (drop from tokens.now) (drop to tokens.now) (Kind.Typed inner.pat ty) (inner.depth + 1)) }
{
    let depth = inner.depth + 1;
    let boxed = Boxed::new(alloc, inner.pat)?;
    Ok(Found {
        pat: node(tokens, from, to, PatKind::Typed(boxed, ty)),
        depth,
    })
}

/// A constructor with its argument.
pub fn applied(
    alloc: Global,
    tokens: &[Token],
    from: usize,
    to: usize,
    name: Span,
    inner: Found,
) -> Result<Found, AllocError>
    requires { inner.depth + 1 < 2 ^ 32 }
    ensures { IfOk result (IsNode (drop from tokens.now) (drop to tokens.now) (Kind.Con (ConNamed name) (Some inner.pat)) (inner.depth + 1)) }
{
    let depth = inner.depth + 1;
    let boxed = Boxed::new(alloc, inner.pat)?;
    let kind = PatKind::Con {
        name: ConName::Named(name),
        arg: Some(boxed),
    };
    Ok(Found {
        pat: node(tokens, from, to, kind),
        depth,
    })
}

/// `p as name`
pub fn named(
    alloc: Global,
    tokens: &[Token],
    from: usize,
    to: usize,
    inner: Found,
    name: Span,
) -> Result<Found, AllocError>
    requires { inner.depth + 1 < 2 ^ 32 }
    ensures { IfOk result (IsNode (drop from tokens.now) (drop to tokens.now) (Kind.Named inner.pat name) (inner.depth + 1)) }
{
    let depth = inner.depth + 1;
    let boxed = Boxed::new(alloc, inner.pat)?;
    Ok(Found {
        pat: node(tokens, from, to, PatKind::Named(boxed, name)),
        depth,
    })
}

/// `p :: q`
pub fn cons(
    alloc: Global,
    tokens: &[Token],
    from: usize,
    to: usize,
    first: Found,
    rest: Found,
) -> Result<Found, AllocError>
    requires one { first.depth + 1 < 2 ^ 32 }
    requires other { rest.depth + 1 < 2 ^ 32 }
    ensures { IfOk result (IsNode (drop from tokens.now) (drop to tokens.now) (Kind.Cons first.pat rest.pat) (max first.depth rest.depth + 1)) }
{
    let depth = first.depth.max(rest.depth) + 1;
    let one = Boxed::new(alloc, first.pat)?;
    let other = Boxed::new(alloc, rest.pat)?;
    Ok(Found {
        pat: node(tokens, from, to, PatKind::Cons(one, other)),
        depth,
    })
}

/// `p | q`
pub fn either(
    alloc: Global,
    tokens: &[Token],
    from: usize,
    to: usize,
    first: Found,
    last: Found,
) -> Result<Found, AllocError>
    requires one { first.depth + 1 < 2 ^ 32 }
    requires other { last.depth + 1 < 2 ^ 32 }
    ensures { IfOk result (IsNode (drop from tokens.now) (drop to tokens.now) (Kind.Or first.pat last.pat) (max first.depth last.depth + 1)) }
{
    let depth = first.depth.max(last.depth) + 1;
    let one = Boxed::new(alloc, first.pat)?;
    let other = Boxed::new(alloc, last.pat)?;
    Ok(Found {
        pat: node(tokens, from, to, PatKind::Or(one, other)),
        depth,
    })
}

/// The refusal at a place where a list cannot go on.
pub fn give_up_list(tokens: &[Token], at: usize, _list: Items<Pat>) -> Refusal
    ensures { IsRefusal tokens.now result }
{
    refusal_at(tokens, at)
}

/// The refusal at a place where a record pattern cannot go on.
pub fn give_up_fields(tokens: &[Token], at: usize, _list: Items<FieldPat>) -> Refusal
    ensures { IsRefusal tokens.now result }
{
    refusal_at(tokens, at)
}
