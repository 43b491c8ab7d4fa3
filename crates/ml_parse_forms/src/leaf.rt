//! Atoms without parts.
ghost use Rattle.std.specs.Prelude.{◌≡◌, ◌≤◌, ◌-◌, drop, All, IfOk, IfErr};
ghost use Rattle.ml_lexer.specs.Tokens.{IsSound};
ghost use Rattle.ml_cursor.specs.Says.{Says};
ghost use Rattle.ml_grammar.specs.declared.looks.AtomLead.{AtomLead};
ghost use Rattle.ml_grammar.specs.Trees.{width, constant, leaf_kind};
ghost use Rattle.ml_grammar.specs.Grammar.{AtomBy};
ghost use Rattle.ml_grammar.specs.Readings.{IsRead, AreDeep};

use crate::found::{FoundExpr, joined, node, open_form};
use crate::source::Source;
use ml_cursor::{ParseErr, char_at, int_at, pass, refusal_at, span_at};
use ml_grammar::Leaf;
use ml_lexer::{Token, TokenKind, text_bytes};
use ml_tree::{ConName, ExprKind};
use sqlite_items::at as token_at;
use std::alloc::Global;

/// Goes to the last token of a leaf.
fn to_last(leaf: Leaf, tokens: &[Token], at: &mut usize)
    ensures { drop at.new tokens.now ≡ drop (width leaf - 1) (drop at.old tokens.now) }
{
    match leaf {
        Leaf::Path => {
            pass(tokens, at);
            pass(tokens, at);
        }
        Leaf::Unit | Leaf::Nil => pass(tokens, at),
        _ => {}
    }
}

/// A constructor without an argument.
fn constant(name: ConName) -> ExprKind
    ensures { result ≡ constant name }
{
    ExprKind::Con { name, arg: None }
}

/// What a leaf is, whose tokens are those from one place up to another and the one there.
fn leaf_kind(leaf: Leaf, tokens: &[Token], at: usize, last: usize) -> ExprKind
    requires last { drop last tokens.now ≡ drop (width leaf - 1) (drop at tokens.now) }
    ensures { result ≡ leaf_kind leaf (drop at tokens.now) }
{
    match leaf {
        Leaf::Int => ExprKind::Int(int_at(tokens, at)),
        Leaf::Char => ExprKind::Char(char_at(tokens, at)),
        Leaf::Name => ExprKind::Name(span_at(tokens, at)),
        Leaf::Path => ExprKind::Path(span_at(tokens, at), span_at(tokens, last)),
        Leaf::Upper => constant(ConName::Named(span_at(tokens, at))),
        Leaf::True => constant(ConName::True),
        Leaf::False => constant(ConName::False),
        Leaf::Unit => constant(ConName::Unit),
        Leaf::Nil => constant(ConName::Nil),
    }
}

/// The leaf at this place.
#[tactic(auto, using(ml_grammar::proofs::Atoms::leaf_read, ml_grammar::proofs::Atoms::no_room, ml_grammar::proofs::Handed::after_last))]
pub fn read_leaf(
    leaf: Leaf,
    alloc: Global,
    source: &Source,
    at: &mut usize,
    left: u32,
) -> Result<FoundExpr, ParseErr>
    ensures ok { IfOk result (λ f. IsRead (AtomBy source.now.text.now (AtomLead.Leaf leaf) (drop at.old source.now.tokens.now)) left f.tree f.depth (drop at.new source.now.tokens.now)) }
    ensures err { IfErr result (Says source.now.tokens.now (AreDeep (AtomBy source.now.text.now (AtomLead.Leaf leaf) (drop at.old source.now.tokens.now)) left)) }
{
    if left == 0 {
        return Err(ParseErr::Refused(refusal_at(source.tokens, *at)));
    }
    let start = *at;
    to_last(leaf, source.tokens, at);
    let kind = leaf_kind(leaf, source.tokens, start, *at);
    let span = joined(span_at(source.tokens, start), span_at(source.tokens, *at));
    pass(source.tokens, at);
    Ok(node(alloc, span, kind, 0)?)
}

/// The text literal at this place.
#[tactic(auto, using(ml_grammar::proofs::Atoms::text_read, ml_grammar::proofs::Atoms::text_no_token, ml_grammar::proofs::Atoms::text_other_kind, ml_grammar::proofs::Atoms::no_room))]
pub fn read_text(
    alloc: Global,
    source: &Source,
    at: &mut usize,
    left: u32,
) -> Result<FoundExpr, ParseErr>
    requires texts { All (IsSound source.now.text.now) source.now.tokens.now }
    ensures ok { IfOk result (λ f. IsRead (AtomBy source.now.text.now AtomLead.Text (drop at.old source.now.tokens.now)) left f.tree f.depth (drop at.new source.now.tokens.now)) }
    ensures err { IfErr result (Says source.now.tokens.now (AreDeep (AtomBy source.now.text.now AtomLead.Text (drop at.old source.now.tokens.now)) left)) }
{
    let Some(token) = token_at(source.tokens, *at) else {
        return Err(ParseErr::Refused(refusal_at(source.tokens, *at)));
    };
    let TokenKind::Text = token.kind else {
        return Err(ParseErr::Refused(refusal_at(source.tokens, *at)));
    };
    let head = open_form(source.tokens, at, left)?;
    match text_bytes(alloc, source.text, *token) {
        Ok(literal) => Ok(node(alloc, head.span, ExprKind::Text(literal), 0)?),
        Err(_) => Err(ParseErr::NoMemory),
    }
}
