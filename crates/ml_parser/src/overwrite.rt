//! Overwrites, and constructors with an argument.
ghost use Rattle.std.specs.Prelude.{drop, All, IfOk, IfErr};
ghost use Rattle.ml_lexer.specs.Tokens.{IsSound};
ghost use Rattle.ml_cursor.specs.declared.front.Front.{Front};
ghost use Rattle.ml_cursor.specs.Fronts.{front};
ghost use Rattle.ml_cursor.specs.Says.{Says};
ghost use Rattle.ml_grammar.specs.declared.looks.Lead.{Lead};
ghost use Rattle.ml_grammar.specs.Grammar.{OperandBy, ConBy};
ghost use Rattle.ml_grammar.specs.Readings.{IsRead, AreDeep};

use crate::expression::{read_level, read_operators};
use crate::simple::read_simple;
use ml_cursor::{Front, ParseErr, front_at, refusal_at};
use ml_parse_forms::brackets::close_paren;
use ml_parse_forms::found::{FoundExpr, before, open_form};
use ml_parse_forms::make::{constructor, overwrite};
use ml_parse_forms::operators::CONS_LEVEL;
use ml_parse_forms::source::Source;
use ml_parse_forms::target::read_overwritten;
use std::alloc::Global;

/// `overwrite_ name with con`
#[cycle(expressions)]
#[inline(never)]
pub fn read_overwrite(
    alloc: Global,
    source: &Source,
    at: &mut usize,
    left: u32,
) -> Result<FoundExpr, ParseErr>
    requires texts { All (IsSound source.now.text.now) source.now.tokens.now }
    ensures ok { IfOk result (λ f. IsRead (OperandBy source.now.text.now Lead.Overwrite (drop at.old source.now.tokens.now)) left f.tree f.depth (drop at.new source.now.tokens.now)) }
    ensures err { IfErr result (Says source.now.tokens.now (AreDeep (OperandBy source.now.text.now Lead.Overwrite (drop at.old source.now.tokens.now)) left)) }
{
    let head = open_form(source.tokens, at, left)?;
    let name = read_overwritten(source.tokens, at)?;
    let con = read_con(alloc, source, at, head.below)?;
    Ok(overwrite(alloc, head, name, con)?)
}

/// `Name simple`, or `(expr)` with `::` on top.
#[cycle(expressions)]
#[inline(never)]
fn read_con(
    alloc: Global,
    source: &Source,
    at: &mut usize,
    left: u32,
) -> Result<FoundExpr, ParseErr>
    requires texts { All (IsSound source.now.text.now) source.now.tokens.now }
    ensures ok { IfOk result (λ f. IsRead (ConBy source.now.text.now (front (drop at.old source.now.tokens.now)) (drop at.old source.now.tokens.now)) left f.tree f.depth (drop at.new source.now.tokens.now)) }
    ensures err { IfErr result (Says source.now.tokens.now (AreDeep (ConBy source.now.text.now (front (drop at.old source.now.tokens.now)) (drop at.old source.now.tokens.now)) left)) }
{
    match front_at(source.tokens, *at) {
        Front::Upper => Ok(read_block(alloc, source, at, left)?),
        Front::OpenParen => Ok(read_cell(alloc, source, at, left)?),
        _ => Err(ParseErr::Refused(refusal_at(source.tokens, *at))),
    }
}

/// `Name simple`
#[cycle(expressions)]
#[inline(never)]
pub fn read_block(
    alloc: Global,
    source: &Source,
    at: &mut usize,
    left: u32,
) -> Result<FoundExpr, ParseErr>
    requires texts { All (IsSound source.now.text.now) source.now.tokens.now }
    ensures ok { IfOk result (λ f. IsRead (ConBy source.now.text.now Front.Upper (drop at.old source.now.tokens.now)) left f.tree f.depth (drop at.new source.now.tokens.now)) }
    ensures err { IfErr result (Says source.now.tokens.now (AreDeep (ConBy source.now.text.now Front.Upper (drop at.old source.now.tokens.now)) left)) }
{
    let head = open_form(source.tokens, at, left)?;
    let arg = read_simple(alloc, source, at, head.below)?;
    Ok(constructor(alloc, head, arg)?)
}

/// `(expr)` with `::` on top.
#[cycle(expressions)]
#[inline(never)]
fn read_cell(
    alloc: Global,
    source: &Source,
    at: &mut usize,
    left: u32,
) -> Result<FoundExpr, ParseErr>
    requires texts { All (IsSound source.now.text.now) source.now.tokens.now }
    ensures ok { IfOk result (λ f. IsRead (ConBy source.now.text.now Front.OpenParen (drop at.old source.now.tokens.now)) left f.tree f.depth (drop at.new source.now.tokens.now)) }
    ensures err { IfErr result (Says source.now.tokens.now (AreDeep (ConBy source.now.text.now Front.OpenParen (drop at.old source.now.tokens.now)) left)) }
{
    let head = open_form(source.tokens, at, left)?;
    let first = read_operators(CONS_LEVEL - 1, alloc, source, at, head.below)?;
    let first = before(source.tokens, *at, Front::ColonColon, first)?;
    let cell = read_level(CONS_LEVEL - 1, alloc, source, at, first, head.below)?;
    Ok(close_paren(alloc, source.tokens, at, Front::CloseParen, head, cell)?)
}
