//! The arms of a match.
ghost use Rattle.std.specs.Prelude.{drop, All, IfOk, IfErr};
ghost use Rattle.ml_lexer.specs.Tokens.{IsSound};
ghost use Rattle.ml_cursor.specs.Fronts.{front};
ghost use Rattle.ml_cursor.specs.Says.{Says};
ghost use Rattle.ml_grammar.specs.Looks.{behind_bar};
ghost use Rattle.ml_grammar.specs.Grammar.{arms, GuardBy, Lists, ItemBy};
ghost use Rattle.ml_grammar.specs.Readings.{IsRead, AreDeep, Actions};

use crate::expression::{read_parts, read_until};
use ml_cursor::{Front, ParseErr, accept};
use ml_grammar::ListKind;
use ml_parse_forms::found::{Found, expect, just, no_parts, nothing, pair, with_part};
use ml_parse_forms::parts::arm;
use ml_parse_forms::source::Source;
use ml_parse_forms::target::read_whole_pattern;
use ml_tree::{Arm, Expr};
use oxml_base::Items;
use sqlite_items::Boxed;
use std::alloc::Global;

/// `[|] arm (| arm)*`
#[cycle(expressions)]
#[inline(never)]
pub fn read_arms(
    alloc: Global,
    source: &Source,
    at: &mut usize,
    left: u32,
) -> Result<Found<Items<Arm>>, ParseErr>
    requires texts { All (IsSound source.now.text.now) source.now.tokens.now }
    ensures ok { IfOk result (λ f. IsRead (Lists source.now.text.now arms (behind_bar (drop at.old source.now.tokens.now))) left f.tree f.depth (drop at.new source.now.tokens.now)) }
    ensures err { IfErr result (Says source.now.tokens.now (AreDeep (Lists source.now.text.now arms (behind_bar (drop at.old source.now.tokens.now))) left)) }
{
    accept(source.tokens, at, Front::Bar);
    let mut list = no_parts(alloc);
    'arms: loop {
        let arm = read_arm(alloc, source, at, left)?;
        list = with_part(list, arm)?;
        if !accept(source.tokens, at, Front::Bar) {
            return Ok(list);
        }
    }
}

/// `pattern [when seq] -> seq`
#[cycle(expressions)]
#[inline(never)]
fn read_arm(
    alloc: Global,
    source: &Source,
    at: &mut usize,
    left: u32,
) -> Result<Found<Arm>, ParseErr>
    requires texts { All (IsSound source.now.text.now) source.now.tokens.now }
    ensures ok { IfOk result (λ f. IsRead (ItemBy source.now.text.now arms (drop at.old source.now.tokens.now)) left f.tree f.depth (drop at.new source.now.tokens.now)) }
    ensures err { IfErr result (Says source.now.tokens.now (AreDeep (ItemBy source.now.text.now arms (drop at.old source.now.tokens.now)) left)) }
{
    let pat = read_whole_pattern(alloc, source, at, left)?;
    let action = read_action(alloc, source, at, left)?;
    Ok(arm(pat, action))
}

/// `[when seq] -> seq`
#[cycle(expressions)]
#[inline(never)]
fn read_action(
    alloc: Global,
    source: &Source,
    at: &mut usize,
    left: u32,
) -> Result<Found<(Option<Boxed<Expr>>, Boxed<Expr>)>, ParseErr>
    requires texts { All (IsSound source.now.text.now) source.now.tokens.now }
    ensures ok { IfOk result (λ f. IsRead (Actions source.now.text.now (drop at.old source.now.tokens.now)) left f.tree f.depth (drop at.new source.now.tokens.now)) }
    ensures err { IfErr result (Says source.now.tokens.now (AreDeep (Actions source.now.text.now (drop at.old source.now.tokens.now)) left)) }
{
    let guard = read_guard(alloc, source, at, left)?;
    let body = read_parts(ListKind::Statements, alloc, source, at, left)?;
    Ok(pair(guard, body))
}

/// `[when seq] ->`
#[cycle(expressions)]
#[inline(never)]
fn read_guard(
    alloc: Global,
    source: &Source,
    at: &mut usize,
    left: u32,
) -> Result<Found<Option<Boxed<Expr>>>, ParseErr>
    requires texts { All (IsSound source.now.text.now) source.now.tokens.now }
    ensures ok { IfOk result (λ f. IsRead (GuardBy source.now.text.now (front (drop at.old source.now.tokens.now)) (drop at.old source.now.tokens.now)) left f.tree f.depth (drop at.new source.now.tokens.now)) }
    ensures err { IfErr result (Says source.now.tokens.now (AreDeep (GuardBy source.now.text.now (front (drop at.old source.now.tokens.now)) (drop at.old source.now.tokens.now)) left)) }
{
    if accept(source.tokens, at, Front::When) {
        return Ok(just(read_until(Front::Arrow, alloc, source, at, left)?));
    }
    expect(source.tokens, at, Front::Arrow)?;
    Ok(nothing())
}
