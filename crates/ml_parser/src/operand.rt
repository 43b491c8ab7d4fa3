//! Operands: open forms, prefixes, and what begins with an atom.
ghost use Rattle.std.specs.Prelude.{drop, All, IfOk, IfErr};
ghost use Rattle.ml_lexer.specs.Tokens.{IsSound};
ghost use Rattle.ml_cursor.specs.Fronts.{front};
ghost use Rattle.ml_cursor.specs.Says.{Says};
ghost use Rattle.ml_grammar.specs.declared.looks.Lead.{Lead};
ghost use Rattle.ml_grammar.specs.Looks.{is_else};
ghost use Rattle.ml_grammar.specs.Grammar.{operators, Reads, OperandBy, ElseBy};
ghost use Rattle.ml_grammar.specs.Readings.{IsRead, AreDeep, Branches};

use crate::arms::read_arms;
use crate::bind::read_binds;
use crate::expression::{read_behind, read_parts, read_until};
use crate::overwrite::{read_block, read_overwrite};
use ml_cursor::{Front, ParseErr, accept};
use ml_grammar::{Lead, ListKind};
use ml_parse_forms::begins::lead_at;
use ml_parse_forms::forms::{borrow, choice, fun, function, let_in, matching};
use ml_parse_forms::found::{Found, FoundExpr, just, nothing, open_form, pair};
use ml_parse_forms::make::{exclave, minus, worded};
use ml_parse_forms::source::Source;
use ml_parse_forms::target::{read_all_params, read_borrowed};
use ml_tree::{Expr, Words};
use sqlite_items::Boxed;
use std::alloc::Global;

/// An operand of an operator: an open form, a prefix with its operand, or an application. An open
/// form takes all tokens that can belong to it, so it is the last operand.
#[cycle(expressions)]
#[inline(never)]
pub fn read_operand(
    alloc: Global,
    source: &Source,
    at: &mut usize,
    left: u32,
) -> Result<FoundExpr, ParseErr>
    requires texts { All (IsSound source.now.text.now) source.now.tokens.now }
    ensures ok { IfOk result (λ f. IsRead (Reads source.now.text.now (operators 0) (drop at.old source.now.tokens.now)) left f.tree f.depth (drop at.new source.now.tokens.now)) }
    ensures err { IfErr result (Says source.now.tokens.now (AreDeep (Reads source.now.text.now (operators 0) (drop at.old source.now.tokens.now)) left)) }
{
    match lead_at(source.tokens, *at) {
        Lead::Let => read_let(alloc, source, at, left),
        Lead::Borrow => read_borrow(alloc, source, at, left),
        Lead::Match => read_match(alloc, source, at, left),
        Lead::Function => read_function(alloc, source, at, left),
        Lead::Fun => read_fun(alloc, source, at, left),
        Lead::If => read_if(alloc, source, at, left),
        Lead::Exclave => read_exclave(alloc, source, at, left),
        Lead::Minus => read_minus(alloc, source, at, left),
        Lead::Word(words) => read_worded(words, alloc, source, at, left),
        Lead::Overwrite => read_overwrite(alloc, source, at, left),
        Lead::Constructor => read_block(alloc, source, at, left),
        Lead::Application => read_parts(ListKind::Arguments, alloc, source, at, left),
    }
}

/// `let [rec] bind (and bind)* in seq`
#[cycle(expressions)]
#[inline(never)]
fn read_let(
    alloc: Global,
    source: &Source,
    at: &mut usize,
    left: u32,
) -> Result<FoundExpr, ParseErr>
    requires texts { All (IsSound source.now.text.now) source.now.tokens.now }
    ensures ok { IfOk result (λ f. IsRead (OperandBy source.now.text.now Lead.Let (drop at.old source.now.tokens.now)) left f.tree f.depth (drop at.new source.now.tokens.now)) }
    ensures err { IfErr result (Says source.now.tokens.now (AreDeep (OperandBy source.now.text.now Lead.Let (drop at.old source.now.tokens.now)) left)) }
{
    let head = open_form(source.tokens, at, left)?;
    let recursive = accept(source.tokens, at, Front::Rec);
    let binds = read_binds(alloc, source, at, head.below)?;
    let body = read_behind(Front::In, alloc, source, at, head.below)?;
    Ok(let_in(alloc, head, recursive, binds, body)?)
}

/// `let borrow_ name = name in seq`
#[cycle(expressions)]
#[inline(never)]
fn read_borrow(
    alloc: Global,
    source: &Source,
    at: &mut usize,
    left: u32,
) -> Result<FoundExpr, ParseErr>
    requires texts { All (IsSound source.now.text.now) source.now.tokens.now }
    ensures ok { IfOk result (λ f. IsRead (OperandBy source.now.text.now Lead.Borrow (drop at.old source.now.tokens.now)) left f.tree f.depth (drop at.new source.now.tokens.now)) }
    ensures err { IfErr result (Says source.now.tokens.now (AreDeep (OperandBy source.now.text.now Lead.Borrow (drop at.old source.now.tokens.now)) left)) }
{
    let head = open_form(source.tokens, at, left)?;
    let names = read_borrowed(source.tokens, at)?;
    let body = read_behind(Front::In, alloc, source, at, head.below)?;
    Ok(borrow(alloc, head, names, body)?)
}

/// `match seq with arms`
#[cycle(expressions)]
#[inline(never)]
fn read_match(
    alloc: Global,
    source: &Source,
    at: &mut usize,
    left: u32,
) -> Result<FoundExpr, ParseErr>
    requires texts { All (IsSound source.now.text.now) source.now.tokens.now }
    ensures ok { IfOk result (λ f. IsRead (OperandBy source.now.text.now Lead.Match (drop at.old source.now.tokens.now)) left f.tree f.depth (drop at.new source.now.tokens.now)) }
    ensures err { IfErr result (Says source.now.tokens.now (AreDeep (OperandBy source.now.text.now Lead.Match (drop at.old source.now.tokens.now)) left)) }
{
    let head = open_form(source.tokens, at, left)?;
    let scrutinee = read_until(Front::With, alloc, source, at, head.below)?;
    let arms = read_arms(alloc, source, at, head.below)?;
    Ok(matching(alloc, head, scrutinee, arms)?)
}

/// `function arms`
#[cycle(expressions)]
#[inline(never)]
fn read_function(
    alloc: Global,
    source: &Source,
    at: &mut usize,
    left: u32,
) -> Result<FoundExpr, ParseErr>
    requires texts { All (IsSound source.now.text.now) source.now.tokens.now }
    ensures ok { IfOk result (λ f. IsRead (OperandBy source.now.text.now Lead.Function (drop at.old source.now.tokens.now)) left f.tree f.depth (drop at.new source.now.tokens.now)) }
    ensures err { IfErr result (Says source.now.tokens.now (AreDeep (OperandBy source.now.text.now Lead.Function (drop at.old source.now.tokens.now)) left)) }
{
    let head = open_form(source.tokens, at, left)?;
    let arms = read_arms(alloc, source, at, head.below)?;
    Ok(function(alloc, head, arms)?)
}

/// `fun param+ -> seq`
#[cycle(expressions)]
#[inline(never)]
fn read_fun(
    alloc: Global,
    source: &Source,
    at: &mut usize,
    left: u32,
) -> Result<FoundExpr, ParseErr>
    requires texts { All (IsSound source.now.text.now) source.now.tokens.now }
    ensures ok { IfOk result (λ f. IsRead (OperandBy source.now.text.now Lead.Fun (drop at.old source.now.tokens.now)) left f.tree f.depth (drop at.new source.now.tokens.now)) }
    ensures err { IfErr result (Says source.now.tokens.now (AreDeep (OperandBy source.now.text.now Lead.Fun (drop at.old source.now.tokens.now)) left)) }
{
    let head = open_form(source.tokens, at, left)?;
    let params = read_all_params(alloc, source, at, head.below)?;
    let body = read_behind(Front::Arrow, alloc, source, at, head.below)?;
    Ok(fun(alloc, head, params, body)?)
}

/// `if seq then expr [else expr]`
#[cycle(expressions)]
#[inline(never)]
fn read_if(alloc: Global, source: &Source, at: &mut usize, left: u32) -> Result<FoundExpr, ParseErr>
    requires texts { All (IsSound source.now.text.now) source.now.tokens.now }
    ensures ok { IfOk result (λ f. IsRead (OperandBy source.now.text.now Lead.If (drop at.old source.now.tokens.now)) left f.tree f.depth (drop at.new source.now.tokens.now)) }
    ensures err { IfErr result (Says source.now.tokens.now (AreDeep (OperandBy source.now.text.now Lead.If (drop at.old source.now.tokens.now)) left)) }
{
    let head = open_form(source.tokens, at, left)?;
    let condition = read_until(Front::Then, alloc, source, at, head.below)?;
    let branches = read_branches(alloc, source, at, head.below)?;
    Ok(choice(alloc, head, condition, branches)?)
}

/// `expr [else expr]`
#[cycle(expressions)]
#[inline(never)]
fn read_branches(
    alloc: Global,
    source: &Source,
    at: &mut usize,
    left: u32,
) -> Result<Found<(Boxed<Expr>, Option<Boxed<Expr>>)>, ParseErr>
    requires texts { All (IsSound source.now.text.now) source.now.tokens.now }
    ensures ok { IfOk result (λ f. IsRead (Branches source.now.text.now (drop at.old source.now.tokens.now)) left f.tree f.depth (drop at.new source.now.tokens.now)) }
    ensures err { IfErr result (Says source.now.tokens.now (AreDeep (Branches source.now.text.now (drop at.old source.now.tokens.now)) left)) }
{
    let then = read_parts(ListKind::Parts, alloc, source, at, left)?;
    let other = read_else(alloc, source, at, left)?;
    Ok(pair(then, other))
}

/// `[else expr]`
#[cycle(expressions)]
#[inline(never)]
fn read_else(
    alloc: Global,
    source: &Source,
    at: &mut usize,
    left: u32,
) -> Result<Found<Option<Boxed<Expr>>>, ParseErr>
    requires texts { All (IsSound source.now.text.now) source.now.tokens.now }
    ensures ok { IfOk result (λ f. IsRead (ElseBy source.now.text.now (is_else (front (drop at.old source.now.tokens.now))) (drop at.old source.now.tokens.now)) left f.tree f.depth (drop at.new source.now.tokens.now)) }
    ensures err { IfErr result (Says source.now.tokens.now (AreDeep (ElseBy source.now.text.now (is_else (front (drop at.old source.now.tokens.now))) (drop at.old source.now.tokens.now)) left)) }
{
    if !accept(source.tokens, at, Front::Else) {
        return Ok(nothing());
    }
    Ok(just(read_parts(ListKind::Parts, alloc, source, at, left)?))
}

/// `exclave_ seq`
#[cycle(expressions)]
#[inline(never)]
fn read_exclave(
    alloc: Global,
    source: &Source,
    at: &mut usize,
    left: u32,
) -> Result<FoundExpr, ParseErr>
    requires texts { All (IsSound source.now.text.now) source.now.tokens.now }
    ensures ok { IfOk result (λ f. IsRead (OperandBy source.now.text.now Lead.Exclave (drop at.old source.now.tokens.now)) left f.tree f.depth (drop at.new source.now.tokens.now)) }
    ensures err { IfErr result (Says source.now.tokens.now (AreDeep (OperandBy source.now.text.now Lead.Exclave (drop at.old source.now.tokens.now)) left)) }
{
    let head = open_form(source.tokens, at, left)?;
    let body = read_parts(ListKind::Statements, alloc, source, at, head.below)?;
    Ok(exclave(alloc, head, body)?)
}

/// `-` and its operand.
#[cycle(expressions)]
#[inline(never)]
fn read_minus(
    alloc: Global,
    source: &Source,
    at: &mut usize,
    left: u32,
) -> Result<FoundExpr, ParseErr>
    requires texts { All (IsSound source.now.text.now) source.now.tokens.now }
    ensures ok { IfOk result (λ f. IsRead (OperandBy source.now.text.now Lead.Minus (drop at.old source.now.tokens.now)) left f.tree f.depth (drop at.new source.now.tokens.now)) }
    ensures err { IfErr result (Says source.now.tokens.now (AreDeep (OperandBy source.now.text.now Lead.Minus (drop at.old source.now.tokens.now)) left)) }
{
    let head = open_form(source.tokens, at, left)?;
    let negated = read_operand(alloc, source, at, head.below)?;
    Ok(minus(alloc, head, negated)?)
}

/// A word that states a mode, and its operand.
#[cycle(expressions)]
#[inline(never)]
fn read_worded(
    words: Words,
    alloc: Global,
    source: &Source,
    at: &mut usize,
    left: u32,
) -> Result<FoundExpr, ParseErr>
    requires texts { All (IsSound source.now.text.now) source.now.tokens.now }
    ensures ok { IfOk result (λ f. IsRead (OperandBy source.now.text.now (Lead.Word words) (drop at.old source.now.tokens.now)) left f.tree f.depth (drop at.new source.now.tokens.now)) }
    ensures err { IfErr result (Says source.now.tokens.now (AreDeep (OperandBy source.now.text.now (Lead.Word words) (drop at.old source.now.tokens.now)) left)) }
{
    let head = open_form(source.tokens, at, left)?;
    let operand = read_operand(alloc, source, at, head.below)?;
    Ok(worded(alloc, words, head, operand)?)
}
