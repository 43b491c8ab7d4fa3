ghost use Rattle.std.specs.Prelude.{◌≡◌, ◌+◌, ◌^◌, ◌<◌, drop, All, List, ℕ, IfOk, IfErr};
ghost use Rattle.ml_lexer.specs.Tokens.{IsSound};
ghost use Rattle.ml_cursor.specs.Says.{Says};
ghost use Rattle.ml_parse_patterns.specs.declared.looks.Lead.TheVariants.{Whole, Name, Quoted, Paren, Bracket, Brace};
ghost use Rattle.ml_parse_patterns.specs.declared.looks.Level.TheVariants.{Simple, Operand};
ghost use Rattle.ml_parse_patterns.specs.Looks.{lead};
ghost use Rattle.ml_parse_patterns.specs.Readings.{IsFound, NoTree, IsNone, IsAnnotation, NoAnnotation};

use crate::found::{Annotation, Found};
use crate::levels::read_pattern;
use crate::lists::{read_fields, read_list};
use crate::looks::{Lead, Leaf, Listing, applies_at, lead_at, pass_all};
use crate::nodes::{applied, give_up, leaf_kind, node, paren, typed};
use ml_cursor::{Front, ParseErr, pass, refusal_at, span_at, stands, take};
use ml_lexer::{Token, text_bytes};
use ml_parse_types::{Row, read_type, read_words};
use ml_tree::PatKind;
use oxml_base::Items;
use sqlite_items::at as token_at;
use std::alloc::Global;

/// Reads the leaf that a look has told whole.
fn read_leaf(tokens: &[Token], at: &mut usize, leaf: Leaf, width: usize) -> Found
    requires { lead (drop at.old tokens.now) ≡ Whole leaf width }
    ensures { (text : List ℕ) → IsFound text Simple 1 (drop at.old tokens.now) (drop at.new tokens.now) result }
{
    let from = *at;
    pass_all(tokens, at, width);
    Found {
        pat: node(tokens, from, *at, leaf_kind(leaf)),
        depth: 1,
    }
}

/// Reads a name with the words before it.
fn read_name(tokens: &[Token], at: &mut usize) -> Result<Found, ParseErr>
    requires { lead (drop at.old tokens.now) ≡ Name }
    ensures ok { (text : List ℕ) → IfOk result (IsFound text Simple 1 (drop at.old tokens.now) (drop at.new tokens.now)) }
    ensures err { (text : List ℕ) → IfErr result (Says tokens.now (IsNone text (drop at.old tokens.now))) }
{
    let from = *at;
    let words = read_words(tokens, at)?;
    let name = take(tokens, at, Front::Lower)?;
    Ok(Found {
        pat: node(tokens, from, *at, PatKind::Name(words, name)),
        depth: 1,
    })
}

/// Reads a text literal.
fn read_text(
    alloc: Global,
    text: &[u8],
    tokens: &[Token],
    at: &mut usize,
) -> Result<Found, ParseErr>
    requires texts { All (IsSound text.now) tokens.now }
    requires begins { lead (drop at.old tokens.now) ≡ Quoted }
    ensures ok { IfOk result (IsFound text.now Simple 1 (drop at.old tokens.now) (drop at.new tokens.now)) }
    ensures err { IfErr result (Says tokens.now (IsNone text.now (drop at.old tokens.now))) }
{
    let from = *at;
    let Some(&token) = token_at(tokens, from) else {
        unreachable!();
    };
    let Ok(literal) = text_bytes(alloc, text, token) else {
        return Err(ParseErr::NoMemory);
    };
    pass(tokens, at);
    Ok(Found {
        pat: node(tokens, from, *at, PatKind::Text(literal)),
        depth: 1,
    })
}

/// Reads the `:`, the type and the `)` behind a pattern.
pub fn read_annotation(
    alloc: Global,
    tokens: &[Token],
    at: &mut usize,
) -> Result<Annotation, ParseErr>
    ensures ok { IfOk result (IsAnnotation tokens.now (drop at.old tokens.now) (drop at.new tokens.now)) }
    ensures err { IfErr result (Says tokens.now (NoAnnotation (drop at.old tokens.now))) }
{
    pass(tokens, at);
    let ty = read_type(alloc, tokens, at, Row::Factors)?;
    let end = *at;
    take(tokens, at, Front::CloseParen)?;
    Ok(Annotation { ty, end })
}

/// Reads a pattern in parentheses, with or without a type; the pattern may be as deep as `below`.
#[cycle(patterns)]
fn read_parens(
    alloc: Global,
    text: &[u8],
    tokens: &[Token],
    at: &mut usize,
    below: u32,
) -> Result<Found, ParseErr>
    requires texts { All (IsSound text.now) tokens.now }
    requires begins { lead (drop at.old tokens.now) ≡ Paren }
    requires room { below + 1 < 2 ^ 32 }
    ensures ok { IfOk result (IsFound text.now Simple (below + 1) (drop at.old tokens.now) (drop at.new tokens.now)) }
    ensures err { IfErr result (Says tokens.now (NoTree text.now Simple (below + 1) (drop at.old tokens.now))) }
{
    let from = *at;
    pass(tokens, at);
    let inner = read_pattern(alloc, text, tokens, at, below)?;
    let closes = stands(tokens, *at, Front::CloseParen);
    if closes {
        pass(tokens, at);
        return Ok(paren(alloc, tokens, from, *at, inner)?);
    }
    let goes_on = stands(tokens, *at, Front::Colon);
    if !goes_on {
        return Err(ParseErr::Refused(give_up(tokens, *at, inner)));
    }
    let read = read_annotation(alloc, tokens, at)?;
    Ok(typed(alloc, tokens, from, *at, inner, read.ty)?)
}

/// Reads a list of at least one element, each as deep as `below` at most.
#[cycle(patterns)]
fn read_elements(
    alloc: Global,
    text: &[u8],
    tokens: &[Token],
    at: &mut usize,
    below: u32,
) -> Result<Found, ParseErr>
    requires texts { All (IsSound text.now) tokens.now }
    requires begins { lead (drop at.old tokens.now) ≡ Bracket }
    requires room { below + 1 < 2 ^ 32 }
    ensures ok { IfOk result (IsFound text.now Simple (below + 1) (drop at.old tokens.now) (drop at.new tokens.now)) }
    ensures err { IfErr result (Says tokens.now (NoTree text.now Simple (below + 1) (drop at.old tokens.now))) }
{
    let from = *at;
    pass(tokens, at);
    let read = read_list(
        alloc,
        text,
        tokens,
        at,
        Listing::Elements,
        Items::new(alloc),
        0,
        below,
    )?;
    Ok(Found {
        pat: node(tokens, from, *at, PatKind::List(read.list)),
        depth: read.depth + 1,
    })
}

/// Reads a record pattern, each field as deep as `below` at most.
#[cycle(patterns)]
fn read_record(
    alloc: Global,
    text: &[u8],
    tokens: &[Token],
    at: &mut usize,
    below: u32,
) -> Result<Found, ParseErr>
    requires texts { All (IsSound text.now) tokens.now }
    requires begins { lead (drop at.old tokens.now) ≡ Brace }
    requires room { below + 1 < 2 ^ 32 }
    ensures ok { IfOk result (IsFound text.now Simple (below + 1) (drop at.old tokens.now) (drop at.new tokens.now)) }
    ensures err { IfErr result (Says tokens.now (NoTree text.now Simple (below + 1) (drop at.old tokens.now))) }
{
    let from = *at;
    pass(tokens, at);
    let read = read_fields(alloc, text, tokens, at, below)?;
    let kind = PatKind::Fields {
        list: read.list,
        rest: read.more,
    };
    Ok(Found {
        pat: node(tokens, from, *at, kind),
        depth: read.depth + 1,
    })
}

/// Reads the simple pattern at a place.
#[cycle(patterns)]
pub fn read_simple(
    alloc: Global,
    text: &[u8],
    tokens: &[Token],
    at: &mut usize,
    left: u32,
) -> Result<Found, ParseErr>
    requires { All (IsSound text.now) tokens.now }
    ensures ok { IfOk result (IsFound text.now Simple left (drop at.old tokens.now) (drop at.new tokens.now)) }
    ensures err { IfErr result (Says tokens.now (NoTree text.now Simple left (drop at.old tokens.now))) }
{
    let Some(below) = left.checked_sub(1) else {
        return Err(ParseErr::Refused(refusal_at(tokens, *at)));
    };
    match lead_at(tokens, *at) {
        Lead::Nothing => Err(ParseErr::Refused(refusal_at(tokens, *at))),
        Lead::Whole(leaf, width) => Ok(read_leaf(tokens, at, leaf, width)),
        Lead::Name => read_name(tokens, at),
        Lead::Quoted => read_text(alloc, text, tokens, at),
        Lead::Paren => read_parens(alloc, text, tokens, at, below),
        Lead::Bracket => read_elements(alloc, text, tokens, at, below),
        Lead::Brace => read_record(alloc, text, tokens, at, below),
    }
}

/// Reads a constructor with its argument, or a simple pattern.
#[cycle(patterns)]
pub fn read_operand(
    alloc: Global,
    text: &[u8],
    tokens: &[Token],
    at: &mut usize,
    left: u32,
) -> Result<Found, ParseErr>
    requires { All (IsSound text.now) tokens.now }
    ensures ok { IfOk result (IsFound text.now Operand left (drop at.old tokens.now) (drop at.new tokens.now)) }
    ensures err { IfErr result (Says tokens.now (NoTree text.now Operand left (drop at.old tokens.now))) }
{
    if !applies_at(tokens, *at) {
        return read_simple(alloc, text, tokens, at, left);
    }
    let Some(below) = left.checked_sub(1) else {
        return Err(ParseErr::Refused(refusal_at(tokens, *at)));
    };
    let from = *at;
    pass(tokens, at);
    let inner = read_simple(alloc, text, tokens, at, below)?;
    Ok(applied(alloc, tokens, from, *at, span_at(tokens, from), inner)?)
}
