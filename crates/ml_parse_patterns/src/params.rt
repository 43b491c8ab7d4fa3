ghost use Rattle.std.specs.Prelude.{◌≡◌, ◌+◌, ◌^◌, ◌<◌, drop, All, List, ℕ, IfOk, IfErr};
ghost use Rattle.ml_lexer.specs.Tokens.{IsSound};
ghost use Rattle.ml_cursor.specs.Says.{Says};
ghost use Rattle.ml_parse_patterns.specs.declared.looks.ParamLead.TheVariants.{Short, Parens};
ghost use Rattle.ml_parse_patterns.specs.Looks.{param_lead};
ghost use Rattle.ml_parse_patterns.specs.Readings.{NoAnnotation, HasType, IsParam, NoParam, AreParams, NoParams};

use crate::found::{Found, FoundParam, FoundParams};
use crate::levels::read_pattern;
use crate::looks::{Leaf, ParamLead, begins_param, param_lead_at, pass_all};
use crate::nodes::{give_up, leaf_kind, node, typed};
use crate::simple::read_annotation;
use ml_cursor::{Front, ParseErr, pass, refusal_at, stands};
use ml_lexer::Token;
use ml_parse_types::{no_words, read_words};
use ml_tree::{Param, Words};
use oxml_base::Items;
use std::alloc::Global;

/// Reads the parameter that a look has told whole.
fn read_short(tokens: &[Token], at: &mut usize, leaf: Leaf, width: usize) -> FoundParam
    requires { param_lead (drop at.old tokens.now) ≡ Short leaf width }
    ensures { (text : List ℕ) → IsParam text 1 (drop at.old tokens.now) (drop at.new tokens.now) result }
{
    let from = *at;
    pass_all(tokens, at, width);
    FoundParam {
        param: Param {
            words: no_words(),
            pat: node(tokens, from, *at, leaf_kind(leaf)),
        },
        depth: 1,
    }
}

fn found(words: Words, read: Found) -> FoundParam
    ensures words { result.param.words ≡ words }
    ensures pat { result.param.pat ≡ read.pat }
    ensures depth { result.depth ≡ read.depth }
{
    FoundParam {
        param: Param {
            words,
            pat: read.pat,
        },
        depth: read.depth,
    }
}

/// Reads the type and the `)` behind a pattern which begins at `from`; the node ends with the type.
fn add_type(
    alloc: Global,
    tokens: &[Token],
    at: &mut usize,
    from: usize,
    inner: Found,
) -> Result<Found, ParseErr>
    requires { inner.depth + 1 < 2 ^ 32 }
    ensures ok { IfOk result (HasType tokens.now (drop from tokens.now) (drop at.old tokens.now) (drop at.new tokens.now) inner) }
    ensures err { IfErr result (Says tokens.now (NoAnnotation (drop at.old tokens.now))) }
{
    let read = read_annotation(alloc, tokens, at)?;
    Ok(typed(alloc, tokens, from, read.end, inner, read.ty)?)
}

/// Reads a parameter in parentheses, which belong to it and make no node.
fn read_parens(
    alloc: Global,
    text: &[u8],
    tokens: &[Token],
    at: &mut usize,
    left: u32,
) -> Result<FoundParam, ParseErr>
    requires texts { All (IsSound text.now) tokens.now }
    requires begins { param_lead (drop at.old tokens.now) ≡ Parens }
    ensures ok { IfOk result (IsParam text.now left (drop at.old tokens.now) (drop at.new tokens.now)) }
    ensures err { IfErr result (Says tokens.now (NoParam text.now left (drop at.old tokens.now))) }
{
    pass(tokens, at);
    let words = read_words(tokens, at)?;
    let from = *at;
    let inner = read_pattern(alloc, text, tokens, at, left)?;
    let closes = stands(tokens, *at, Front::CloseParen);
    if closes {
        pass(tokens, at);
        return Ok(found(words, inner));
    }
    let goes_on = stands(tokens, *at, Front::Colon);
    if !goes_on {
        return Err(ParseErr::Refused(give_up(tokens, *at, inner)));
    }
    if inner.depth >= left {
        return Err(ParseErr::Refused(give_up(tokens, *at, inner)));
    }
    Ok(found(words, add_type(alloc, tokens, at, from, inner)?))
}

/// Reads the parameter at a place, whose pattern may be as deep as `left`.
pub fn read_param(
    alloc: Global,
    text: &[u8],
    tokens: &[Token],
    at: &mut usize,
    left: u32,
) -> Result<FoundParam, ParseErr>
    requires { All (IsSound text.now) tokens.now }
    ensures ok { IfOk result (IsParam text.now left (drop at.old tokens.now) (drop at.new tokens.now)) }
    ensures err { IfErr result (Says tokens.now (NoParam text.now left (drop at.old tokens.now))) }
{
    if left == 0 {
        return Err(ParseErr::Refused(refusal_at(tokens, *at)));
    }
    match param_lead_at(tokens, *at) {
        ParamLead::Absent => Err(ParseErr::Refused(refusal_at(tokens, *at))),
        ParamLead::Short(leaf, width) => Ok(read_short(tokens, at, leaf, width)),
        ParamLead::Parens => read_parens(alloc, text, tokens, at, left),
    }
}

/// Reads all the parameters that stand at a place, one at least.
pub fn read_params(
    alloc: Global,
    text: &[u8],
    tokens: &[Token],
    at: &mut usize,
    left: u32,
) -> Result<FoundParams, ParseErr>
    requires { All (IsSound text.now) tokens.now }
    ensures ok { IfOk result (AreParams text.now left (drop at.old tokens.now) (drop at.new tokens.now)) }
    ensures err { IfErr result (Says tokens.now (NoParams text.now left (drop at.old tokens.now))) }
{
    let mut list = Items::new(alloc);
    let mut deepest = 0;
    'params: loop {
        let one = read_param(alloc, text, tokens, at, left)?;
        deepest = deepest.max(one.depth);
        list.push(one.param)?;
        if !begins_param(tokens, *at) {
            return Ok(FoundParams {
                list,
                depth: deepest,
            });
        }
    }
}
