//! Expressions by levels: sequences, tuples, operators, applications.
ghost use Rattle.std.specs.Prelude.{◌<◌, ◌≤◌, suc, true, drop, All, IfOk, IfErr};
ghost use Rattle.ml_lexer.specs.Tokens.{IsSound};
ghost use Rattle.ml_cursor.specs.Says.{Says};
ghost use Rattle.ml_grammar.specs.Looks.{operator_at};
ghost use Rattle.ml_grammar.specs.Grammar.{operators, listed, part_of, Reads, LevelBy};
ghost use Rattle.ml_grammar.specs.Readings.{IsRead, AreDeep, Until, Behind, Infix, Levels};

use crate::list::read_list;
use crate::operand::read_operand;
use crate::simple::read_simple;
use ml_cursor::{Front, ParseErr, pass};
use ml_grammar::{Joint, ListKind};
use ml_parse_forms::found::{FoundExpr, as_part, closed_by, expect};
use ml_parse_forms::lists::goes_on;
use ml_parse_forms::make::{gathered, infix};
use ml_parse_forms::operators::{LAST_LEVEL, groups_left, operator_at};
use ml_parse_forms::source::Source;
use std::alloc::Global;

/// A part of a list of this kind.
#[cycle(expressions)]
#[inline(never)]
pub fn read_part(
    kind: ListKind,
    alloc: Global,
    source: &Source,
    at: &mut usize,
    left: u32,
) -> Result<FoundExpr, ParseErr>
    requires texts { All (IsSound source.now.text.now) source.now.tokens.now }
    ensures ok { IfOk result (λ f. IsRead (Reads source.now.text.now (part_of kind) (drop at.old source.now.tokens.now)) left f.tree f.depth (drop at.new source.now.tokens.now)) }
    ensures err { IfErr result (Says source.now.tokens.now (AreDeep (Reads source.now.text.now (part_of kind) (drop at.old source.now.tokens.now)) left)) }
{
    match kind {
        ListKind::Statements | ListKind::Elements => {
            read_parts(ListKind::Parts, alloc, source, at, left)
        }
        ListKind::Parts => read_operators(LAST_LEVEL, alloc, source, at, left),
        ListKind::Arguments => read_simple(alloc, source, at, left),
    }
}

/// A sequence, a tuple or an application: one part is itself, several are a node.
#[cycle(expressions)]
#[inline(never)]
pub fn read_parts(
    kind: ListKind,
    alloc: Global,
    source: &Source,
    at: &mut usize,
    left: u32,
) -> Result<FoundExpr, ParseErr>
    requires texts { All (IsSound source.now.text.now) source.now.tokens.now }
    ensures ok { IfOk result (λ f. IsRead (Reads source.now.text.now (listed kind) (drop at.old source.now.tokens.now)) left f.tree f.depth (drop at.new source.now.tokens.now)) }
    ensures err { IfErr result (Says source.now.tokens.now (AreDeep (Reads source.now.text.now (listed kind) (drop at.old source.now.tokens.now)) left)) }
{
    let first = read_part(kind, alloc, source, at, left)?;
    if !goes_on(kind, source, at) {
        return Ok(first);
    }
    let first = as_part(source.tokens, *at, first, left)?;
    let others = read_list(kind, alloc, source, at, left - 1)?;
    Ok(gathered(alloc, kind, first, others)?)
}

/// An operand with the operators up to a level that stand behind it.
#[cycle(expressions)]
#[inline(never)]
pub fn read_operators(
    level: u8,
    alloc: Global,
    source: &Source,
    at: &mut usize,
    left: u32,
) -> Result<FoundExpr, ParseErr>
    requires level { level ≤ 8 }
    requires texts { All (IsSound source.now.text.now) source.now.tokens.now }
    ensures ok { IfOk result (λ f. IsRead (Reads source.now.text.now (operators level) (drop at.old source.now.tokens.now)) left f.tree f.depth (drop at.new source.now.tokens.now)) }
    ensures err { IfErr result (Says source.now.tokens.now (AreDeep (Reads source.now.text.now (operators level) (drop at.old source.now.tokens.now)) left)) }
{
    let mut found = read_operand(alloc, source, at, left)?;
    'levels: for lower in 0..level {
        found = read_level(lower, alloc, source, at, found, left)?;
    }
    Ok(found)
}

/// What was found, with the operators behind it of the level above `lower`.
#[cycle(expressions)]
#[inline(never)]
pub fn read_level(
    lower: u8,
    alloc: Global,
    source: &Source,
    at: &mut usize,
    first: FoundExpr,
    left: u32,
) -> Result<FoundExpr, ParseErr>
    requires level { lower < 8 }
    requires small { first.depth ≤ left }
    requires texts { All (IsSound source.now.text.now) source.now.tokens.now }
    ensures ok { IfOk result (λ f. IsRead (Levels source.now.text.now lower first.tree first.depth (drop at.old source.now.tokens.now)) left f.tree f.depth (drop at.new source.now.tokens.now)) }
    ensures err { IfErr result (Says source.now.tokens.now (AreDeep (Levels source.now.text.now lower first.tree first.depth (drop at.old source.now.tokens.now)) left)) }
{
    if groups_left(lower + 1) {
        return Ok(read_to_left(lower, alloc, source, at, first, left)?);
    }
    match operator_at(source.tokens, *at, lower + 1) {
        Some(joint) => Ok(read_second(joint, lower + 1, alloc, source, at, first, left)?),
        None => Ok(first),
    }
}

/// The same for a level that groups to the left.
#[cycle(expressions)]
#[inline(never)]
fn read_to_left(
    lower: u8,
    alloc: Global,
    source: &Source,
    at: &mut usize,
    first: FoundExpr,
    left: u32,
) -> Result<FoundExpr, ParseErr>
    requires level { lower < 8 }
    requires small { first.depth ≤ left }
    requires texts { All (IsSound source.now.text.now) source.now.tokens.now }
    ensures ok { IfOk result (λ f. IsRead (LevelBy source.now.text.now lower true (operator_at (suc lower) (drop at.old source.now.tokens.now)) (drop at.old source.now.tokens.now) first.tree first.depth) left f.tree f.depth (drop at.new source.now.tokens.now)) }
    ensures err { IfErr result (Says source.now.tokens.now (AreDeep (LevelBy source.now.text.now lower true (operator_at (suc lower) (drop at.old source.now.tokens.now)) (drop at.old source.now.tokens.now) first.tree first.depth) left)) }
{
    let mut found = first;
    'operators: while let Some(joint) = operator_at(source.tokens, *at, lower + 1) {
        found = read_second(joint, lower, alloc, source, at, found, left)?;
    }
    Ok(found)
}

/// A first operand, the operator behind it, and the second operand, which has the operators up to a
/// level.
#[cycle(expressions)]
#[inline(never)]
fn read_second(
    joint: Joint,
    level: u8,
    alloc: Global,
    source: &Source,
    at: &mut usize,
    first: FoundExpr,
    left: u32,
) -> Result<FoundExpr, ParseErr>
    requires level { level ≤ 8 }
    requires small { first.depth ≤ left }
    requires texts { All (IsSound source.now.text.now) source.now.tokens.now }
    ensures ok { IfOk result (λ f. IsRead (Infix source.now.text.now level joint first.tree first.depth (drop at.old source.now.tokens.now)) left f.tree f.depth (drop at.new source.now.tokens.now)) }
    ensures err { IfErr result (Says source.now.tokens.now (AreDeep (Infix source.now.text.now level joint first.tree first.depth (drop at.old source.now.tokens.now)) left)) }
{
    let first = as_part(source.tokens, *at, first, left)?;
    pass(source.tokens, at);
    let second = read_operators(level, alloc, source, at, left - 1)?;
    Ok(infix(alloc, joint, first, second)?)
}

/// A sequence, and the token that has to stand behind it.
#[cycle(expressions)]
#[inline(never)]
pub fn read_until(
    end: Front,
    alloc: Global,
    source: &Source,
    at: &mut usize,
    left: u32,
) -> Result<FoundExpr, ParseErr>
    requires texts { All (IsSound source.now.text.now) source.now.tokens.now }
    ensures ok { IfOk result (λ f. IsRead (Until source.now.text.now end (drop at.old source.now.tokens.now)) left f.tree f.depth (drop at.new source.now.tokens.now)) }
    ensures err { IfErr result (Says source.now.tokens.now (AreDeep (Until source.now.text.now end (drop at.old source.now.tokens.now)) left)) }
{
    let found = read_parts(ListKind::Statements, alloc, source, at, left)?;
    Ok(closed_by(source.tokens, at, end, found)?)
}

/// The token that has to stand here, and the sequence behind it.
#[cycle(expressions)]
#[inline(never)]
pub fn read_behind(
    start: Front,
    alloc: Global,
    source: &Source,
    at: &mut usize,
    left: u32,
) -> Result<FoundExpr, ParseErr>
    requires texts { All (IsSound source.now.text.now) source.now.tokens.now }
    ensures ok { IfOk result (λ f. IsRead (Behind source.now.text.now start (drop at.old source.now.tokens.now)) left f.tree f.depth (drop at.new source.now.tokens.now)) }
    ensures err { IfErr result (Says source.now.tokens.now (AreDeep (Behind source.now.text.now start (drop at.old source.now.tokens.now)) left)) }
{
    expect(source.tokens, at, start)?;
    Ok(read_parts(ListKind::Statements, alloc, source, at, left)?)
}
