//! Atoms: leaves, parentheses, lists and records.
ghost use Rattle.std.specs.Prelude.{drop, All, IfOk, IfErr};
ghost use Rattle.ml_lexer.specs.Tokens.{IsSound};
ghost use Rattle.ml_cursor.specs.Says.{Says};
ghost use Rattle.ml_grammar.specs.declared.looks.AtomLead.{AtomLead};
ghost use Rattle.ml_grammar.specs.Grammar.{atom, Reads, AtomBy};
ghost use Rattle.ml_grammar.specs.Readings.{IsRead, AreDeep};

use crate::expression::read_parts;
use crate::list::read_list;
use crate::record::read_fields;
use ml_cursor::{Front, ParseErr, refusal_at};
use ml_grammar::{AtomLead, ListKind};
use ml_parse_forms::begins::atom_at;
use ml_parse_forms::brackets::{close_list, close_paren, close_parens, close_record};
use ml_parse_forms::found::{FoundExpr, open_form};
use ml_parse_forms::leaf::{read_leaf, read_text};
use ml_parse_forms::source::Source;
use std::alloc::Global;

/// An expression in brackets of some kind, or a leaf.
#[cycle(expressions)]
#[inline(never)]
pub fn read_atom(
    alloc: Global,
    source: &Source,
    at: &mut usize,
    left: u32,
) -> Result<FoundExpr, ParseErr>
    requires texts { All (IsSound source.now.text.now) source.now.tokens.now }
    ensures ok { IfOk result (λ f. IsRead (Reads source.now.text.now atom (drop at.old source.now.tokens.now)) left f.tree f.depth (drop at.new source.now.tokens.now)) }
    ensures err { IfErr result (Says source.now.tokens.now (AreDeep (Reads source.now.text.now atom (drop at.old source.now.tokens.now)) left)) }
{
    match atom_at(source.tokens, *at) {
        AtomLead::Paren => read_paren(alloc, source, at, left),
        AtomLead::Begin => read_begin(alloc, source, at, left),
        AtomLead::List => read_elements(alloc, source, at, left),
        AtomLead::Record => read_record(alloc, source, at, left),
        AtomLead::Leaf(leaf) => read_leaf(leaf, alloc, source, at, left),
        AtomLead::Text => read_text(alloc, source, at, left),
        AtomLead::Nothing => Err(ParseErr::Refused(refusal_at(source.tokens, *at))),
    }
}

/// `(seq)` and `(seq : type)`
#[cycle(expressions)]
#[inline(never)]
fn read_paren(
    alloc: Global,
    source: &Source,
    at: &mut usize,
    left: u32,
) -> Result<FoundExpr, ParseErr>
    requires texts { All (IsSound source.now.text.now) source.now.tokens.now }
    ensures ok { IfOk result (λ f. IsRead (AtomBy source.now.text.now AtomLead.Paren (drop at.old source.now.tokens.now)) left f.tree f.depth (drop at.new source.now.tokens.now)) }
    ensures err { IfErr result (Says source.now.tokens.now (AreDeep (AtomBy source.now.text.now AtomLead.Paren (drop at.old source.now.tokens.now)) left)) }
{
    let head = open_form(source.tokens, at, left)?;
    let inner = read_parts(ListKind::Statements, alloc, source, at, head.below)?;
    Ok(close_parens(alloc, source.tokens, at, head, inner)?)
}

/// `begin seq end`
#[cycle(expressions)]
#[inline(never)]
fn read_begin(
    alloc: Global,
    source: &Source,
    at: &mut usize,
    left: u32,
) -> Result<FoundExpr, ParseErr>
    requires texts { All (IsSound source.now.text.now) source.now.tokens.now }
    ensures ok { IfOk result (λ f. IsRead (AtomBy source.now.text.now AtomLead.Begin (drop at.old source.now.tokens.now)) left f.tree f.depth (drop at.new source.now.tokens.now)) }
    ensures err { IfErr result (Says source.now.tokens.now (AreDeep (AtomBy source.now.text.now AtomLead.Begin (drop at.old source.now.tokens.now)) left)) }
{
    let head = open_form(source.tokens, at, left)?;
    let inner = read_parts(ListKind::Statements, alloc, source, at, head.below)?;
    Ok(close_paren(alloc, source.tokens, at, Front::End, head, inner)?)
}

/// `[expr (; expr)* [;]]`
#[cycle(expressions)]
#[inline(never)]
fn read_elements(
    alloc: Global,
    source: &Source,
    at: &mut usize,
    left: u32,
) -> Result<FoundExpr, ParseErr>
    requires texts { All (IsSound source.now.text.now) source.now.tokens.now }
    ensures ok { IfOk result (λ f. IsRead (AtomBy source.now.text.now AtomLead.List (drop at.old source.now.tokens.now)) left f.tree f.depth (drop at.new source.now.tokens.now)) }
    ensures err { IfErr result (Says source.now.tokens.now (AreDeep (AtomBy source.now.text.now AtomLead.List (drop at.old source.now.tokens.now)) left)) }
{
    let head = open_form(source.tokens, at, left)?;
    let list = read_list(ListKind::Elements, alloc, source, at, head.below)?;
    Ok(close_list(alloc, source.tokens, at, head, list)?)
}

/// `{field (; field)* [;]}`
#[cycle(expressions)]
#[inline(never)]
fn read_record(
    alloc: Global,
    source: &Source,
    at: &mut usize,
    left: u32,
) -> Result<FoundExpr, ParseErr>
    requires texts { All (IsSound source.now.text.now) source.now.tokens.now }
    ensures ok { IfOk result (λ f. IsRead (AtomBy source.now.text.now AtomLead.Record (drop at.old source.now.tokens.now)) left f.tree f.depth (drop at.new source.now.tokens.now)) }
    ensures err { IfErr result (Says source.now.tokens.now (AreDeep (AtomBy source.now.text.now AtomLead.Record (drop at.old source.now.tokens.now)) left)) }
{
    let head = open_form(source.tokens, at, left)?;
    let fields = read_fields(alloc, source, at, head.below)?;
    Ok(close_record(alloc, source.tokens, at, head, fields)?)
}
