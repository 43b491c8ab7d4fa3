//! The bindings of a `let`.
ghost use Rattle.std.specs.Prelude.{drop, All, IfOk, IfErr};
ghost use Rattle.ml_lexer.specs.Tokens.{IsSound};
ghost use Rattle.ml_cursor.specs.Says.{Says};
ghost use Rattle.ml_grammar.specs.Grammar.{binds, Lists, ItemBy};
ghost use Rattle.ml_grammar.specs.Readings.{IsRead, AreDeep, Values};

use crate::expression::read_parts;
use ml_cursor::{Front, ParseErr, accept};
use ml_grammar::ListKind;
use ml_parse_forms::found::{Found, no_parts, with_part};
use ml_parse_forms::parts::{bind, value};
use ml_parse_forms::source::Source;
use ml_parse_forms::target::{read_result, read_target};
use ml_tree::{Bind, Expr, TyExpr};
use oxml_base::Items;
use sqlite_items::Boxed;
use std::alloc::Global;

/// `bind (and bind)*`
#[cycle(expressions)]
#[inline(never)]
pub fn read_binds(
    alloc: Global,
    source: &Source,
    at: &mut usize,
    left: u32,
) -> Result<Found<Items<Bind>>, ParseErr>
    requires texts { All (IsSound source.now.text.now) source.now.tokens.now }
    ensures ok { IfOk result (λ f. IsRead (Lists source.now.text.now binds (drop at.old source.now.tokens.now)) left f.tree f.depth (drop at.new source.now.tokens.now)) }
    ensures err { IfErr result (Says source.now.tokens.now (AreDeep (Lists source.now.text.now binds (drop at.old source.now.tokens.now)) left)) }
{
    let mut list = no_parts(alloc);
    'binds: loop {
        let bind = read_bind(alloc, source, at, left)?;
        list = with_part(list, bind)?;
        if !accept(source.tokens, at, Front::And) {
            return Ok(list);
        }
    }
}

/// `name param+ [: type] = seq` and `pattern [: type] = seq`
#[cycle(expressions)]
#[inline(never)]
fn read_bind(
    alloc: Global,
    source: &Source,
    at: &mut usize,
    left: u32,
) -> Result<Found<Bind>, ParseErr>
    requires texts { All (IsSound source.now.text.now) source.now.tokens.now }
    ensures ok { IfOk result (λ f. IsRead (ItemBy source.now.text.now binds (drop at.old source.now.tokens.now)) left f.tree f.depth (drop at.new source.now.tokens.now)) }
    ensures err { IfErr result (Says source.now.tokens.now (AreDeep (ItemBy source.now.text.now binds (drop at.old source.now.tokens.now)) left)) }
{
    let target = read_target(alloc, source, at, left)?;
    let value = read_value(alloc, source, at, left)?;
    Ok(bind(target, value))
}

/// `[: type] = seq`
#[cycle(expressions)]
#[inline(never)]
fn read_value(
    alloc: Global,
    source: &Source,
    at: &mut usize,
    left: u32,
) -> Result<Found<(Option<TyExpr>, Boxed<Expr>)>, ParseErr>
    requires texts { All (IsSound source.now.text.now) source.now.tokens.now }
    ensures ok { IfOk result (λ f. IsRead (Values source.now.text.now (drop at.old source.now.tokens.now)) left f.tree f.depth (drop at.new source.now.tokens.now)) }
    ensures err { IfErr result (Says source.now.tokens.now (AreDeep (Values source.now.text.now (drop at.old source.now.tokens.now)) left)) }
{
    let result = read_result(alloc, source.tokens, at)?;
    let body = read_parts(ListKind::Statements, alloc, source, at, left)?;
    Ok(value(result, body))
}
