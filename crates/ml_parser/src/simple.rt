//! Atoms with what goes on behind them.
ghost use Rattle.std.specs.Prelude.{◌≢◌, ◌<◌, ◌≤◌, drop, All, IfOk, IfErr};
ghost use Rattle.ml_lexer.specs.Tokens.{IsSound};
ghost use Rattle.ml_cursor.specs.Says.{Says};
ghost use Rattle.ml_grammar.specs.declared.looks.Suffix.{Suffix};
ghost use Rattle.ml_grammar.specs.Looks.{suffix};
ghost use Rattle.ml_grammar.specs.Grammar.{simple, Reads};
ghost use Rattle.ml_grammar.specs.Readings.{IsRead, AreDeep, OneSuffix};

use crate::atom::read_atom;
use crate::expression::read_parts;
use ml_cursor::{ParseErr, skip};
use ml_grammar::{ListKind, Suffix};
use ml_parse_forms::begins::suffix_at;
use ml_parse_forms::brackets::{close_index, field_of};
use ml_parse_forms::found::{FoundExpr, as_part};
use ml_parse_forms::source::Source;
use std::alloc::Global;

/// An atom with the `.name` and `.[seq]` behind it.
#[cycle(expressions)]
#[inline(never)]
pub fn read_simple(
    alloc: Global,
    source: &Source,
    at: &mut usize,
    left: u32,
) -> Result<FoundExpr, ParseErr>
    requires texts { All (IsSound source.now.text.now) source.now.tokens.now }
    ensures ok { IfOk result (λ f. IsRead (Reads source.now.text.now simple (drop at.old source.now.tokens.now)) left f.tree f.depth (drop at.new source.now.tokens.now)) }
    ensures err { IfErr result (Says source.now.tokens.now (AreDeep (Reads source.now.text.now simple (drop at.old source.now.tokens.now)) left)) }
{
    let mut found = read_atom(alloc, source, at, left)?;
    'suffixes: while suffix_at(source.tokens, *at) != Suffix::Nothing {
        found = read_suffix(alloc, source, at, found, left)?;
    }
    Ok(found)
}

/// What was found, with one `.name` or `.[seq]`.
#[cycle(expressions)]
#[inline(never)]
fn read_suffix(
    alloc: Global,
    source: &Source,
    at: &mut usize,
    found: FoundExpr,
    left: u32,
) -> Result<FoundExpr, ParseErr>
    requires stands { suffix (drop at.old source.now.tokens.now) ≢ Suffix.Nothing }
    requires small { found.depth ≤ left }
    requires texts { All (IsSound source.now.text.now) source.now.tokens.now }
    ensures ok { IfOk result (λ f. IsRead (OneSuffix source.now.text.now found.tree found.depth (suffix (drop at.old source.now.tokens.now)) (drop at.old source.now.tokens.now)) left f.tree f.depth (drop at.new source.now.tokens.now)) }
    ensures err { IfErr result (Says source.now.tokens.now (AreDeep (OneSuffix source.now.text.now found.tree found.depth (suffix (drop at.old source.now.tokens.now)) (drop at.old source.now.tokens.now)) left)) }
{
    let found = as_part(source.tokens, *at, found, left)?;
    match suffix_at(source.tokens, *at) {
        Suffix::Field => Ok(field_of(alloc, source.tokens, at, found)?),
        _ => Ok(read_index(alloc, source, at, found, left)?),
    }
}

/// What was found, with one `.[seq]`.
#[cycle(expressions)]
#[inline(never)]
fn read_index(
    alloc: Global,
    source: &Source,
    at: &mut usize,
    found: FoundExpr,
    left: u32,
) -> Result<FoundExpr, ParseErr>
    requires small { found.depth < left }
    requires texts { All (IsSound source.now.text.now) source.now.tokens.now }
    ensures ok { IfOk result (λ f. IsRead (OneSuffix source.now.text.now found.tree found.depth Suffix.Index (drop at.old source.now.tokens.now)) left f.tree f.depth (drop at.new source.now.tokens.now)) }
    ensures err { IfErr result (Says source.now.tokens.now (AreDeep (OneSuffix source.now.text.now found.tree found.depth Suffix.Index (drop at.old source.now.tokens.now)) left)) }
{
    skip(source.tokens, at, 2);
    let index = read_parts(ListKind::Statements, alloc, source, at, left - 1)?;
    Ok(close_index(alloc, source.tokens, at, found, index)?)
}
