ghost use Rattle.std.specs.Prelude.{◌≡◌, ◌≤◌, [], ◌∷◌, drop, All, IfOk, IfErr};
ghost use Rattle.ml_lexer.specs.Tokens.{IsSound};
ghost use Rattle.ml_cursor.specs.declared.front.Front.TheVariants.{As, Bar};
ghost use Rattle.ml_cursor.specs.Fronts.{front};
ghost use Rattle.ml_cursor.specs.Says.{Says};
ghost use Rattle.ml_parse_patterns.specs.declared.looks.Level.TheVariants.{Operand, Cons, Tuple, Pattern};
ghost use Rattle.ml_parse_patterns.specs.Readings.{IsFound, NoTree, HasOther, HasOthers, NoOthers, HasName, HasNames, NoNames};

use crate::found::Found;
use crate::lists::read_list;
use crate::looks::Listing;
use crate::nodes::{cons, either, give_up, named, node};
use crate::simple::read_operand;
use ml_cursor::{Front, ParseErr, pass, stands, take};
use ml_lexer::Token;
use ml_tree::{Pat, PatKind};
use oxml_base::Items;
use std::alloc::{AllocError, Global};

/// Reads `:: ..` behind an operand which begins at `from`, if it stands there.
#[cycle(patterns)]
fn add_cons(
    alloc: Global,
    text: &[u8],
    tokens: &[Token],
    at: &mut usize,
    from: usize,
    first: Found,
    left: u32,
) -> Result<Found, ParseErr>
    requires texts { All (IsSound text.now) tokens.now }
    requires first { IsFound text.now Operand left (drop from tokens.now) (drop at.old tokens.now) first }
    ensures ok { IfOk result (IsFound text.now Cons left (drop from tokens.now) (drop at.new tokens.now)) }
    ensures err { IfErr result (Says tokens.now (NoTree text.now Cons left (drop from tokens.now))) }
{
    if !stands(tokens, *at, Front::ColonColon) {
        return Ok(first);
    }
    if first.depth >= left {
        return Err(ParseErr::Refused(give_up(tokens, *at, first)));
    }
    pass(tokens, at);
    let rest = read_cons(alloc, text, tokens, at, left - 1)?;
    Ok(cons(alloc, tokens, from, *at, first, rest)?)
}

/// Reads operands joined by `::`.
#[cycle(patterns)]
pub fn read_cons(
    alloc: Global,
    text: &[u8],
    tokens: &[Token],
    at: &mut usize,
    left: u32,
) -> Result<Found, ParseErr>
    requires { All (IsSound text.now) tokens.now }
    ensures ok { IfOk result (IsFound text.now Cons left (drop at.old tokens.now) (drop at.new tokens.now)) }
    ensures err { IfErr result (Says tokens.now (NoTree text.now Cons left (drop at.old tokens.now))) }
{
    let from = *at;
    let first = read_operand(alloc, text, tokens, at, left)?;
    add_cons(alloc, text, tokens, at, from, first, left)
}

/// A list of one pattern.
fn one_item(alloc: Global, pat: Pat) -> Result<Items<Pat>, AllocError>
    ensures { IfOk result (λ list. list ≡ pat ∷ []) }
{
    let mut list = Items::new(alloc);
    list.push(pat)?;
    Ok(list)
}

/// Reads `, ..` behind a first component which begins at `from`, if it stands there.
#[cycle(patterns)]
fn add_tuple(
    alloc: Global,
    text: &[u8],
    tokens: &[Token],
    at: &mut usize,
    from: usize,
    first: Found,
    left: u32,
) -> Result<Found, ParseErr>
    requires texts { All (IsSound text.now) tokens.now }
    requires first { IsFound text.now Cons left (drop from tokens.now) (drop at.old tokens.now) first }
    ensures ok { IfOk result (IsFound text.now Tuple left (drop from tokens.now) (drop at.new tokens.now)) }
    ensures err { IfErr result (Says tokens.now (NoTree text.now Tuple left (drop from tokens.now))) }
{
    if !stands(tokens, *at, Front::Comma) {
        return Ok(first);
    }
    if first.depth >= left {
        return Err(ParseErr::Refused(give_up(tokens, *at, first)));
    }
    pass(tokens, at);
    let list = one_item(alloc, first.pat)?;
    let read = read_list(
        alloc,
        text,
        tokens,
        at,
        Listing::Components,
        list,
        first.depth,
        left - 1,
    )?;
    Ok(Found {
        pat: node(tokens, from, *at, PatKind::Tuple(read.list)),
        depth: read.depth + 1,
    })
}

/// Reads components joined by `,`.
#[cycle(patterns)]
fn read_tuple(
    alloc: Global,
    text: &[u8],
    tokens: &[Token],
    at: &mut usize,
    left: u32,
) -> Result<Found, ParseErr>
    requires { All (IsSound text.now) tokens.now }
    ensures ok { IfOk result (IsFound text.now Tuple left (drop at.old tokens.now) (drop at.new tokens.now)) }
    ensures err { IfErr result (Says tokens.now (NoTree text.now Tuple left (drop at.old tokens.now))) }
{
    let from = *at;
    let first = read_cons(alloc, text, tokens, at, left)?;
    add_tuple(alloc, text, tokens, at, from, first, left)
}

/// Reads the alternative behind a `|` and joins it to those before it, which begin at `from`.
#[cycle(patterns)]
fn add_other(
    alloc: Global,
    text: &[u8],
    tokens: &[Token],
    at: &mut usize,
    from: usize,
    first: Found,
    left: u32,
) -> Result<Found, ParseErr>
    requires texts { All (IsSound text.now) tokens.now }
    requires bar { front (drop at.old tokens.now) ≡ Bar }
    ensures ok { IfOk result (HasOther text.now left (drop from tokens.now) (drop at.old tokens.now) (drop at.new tokens.now) first) }
    ensures err { IfErr result (Says tokens.now (NoOthers text.now left (drop from tokens.now) (drop at.old tokens.now) first)) }
{
    if first.depth >= left {
        return Err(ParseErr::Refused(give_up(tokens, *at, first)));
    }
    pass(tokens, at);
    let last = read_tuple(alloc, text, tokens, at, left - 1)?;
    Ok(either(alloc, tokens, from, *at, first, last)?)
}

/// Reads the alternatives behind a first one which begins at `from`.
#[cycle(patterns)]
fn add_others(
    alloc: Global,
    text: &[u8],
    tokens: &[Token],
    at: &mut usize,
    from: usize,
    first: Found,
    left: u32,
) -> Result<Found, ParseErr>
    requires texts { All (IsSound text.now) tokens.now }
    requires small { first.depth ≤ left }
    ensures ok { IfOk result (HasOthers text.now left (drop from tokens.now) (drop at.old tokens.now) (drop at.new tokens.now) first) }
    ensures err { IfErr result (Says tokens.now (NoOthers text.now left (drop from tokens.now) (drop at.old tokens.now) first)) }
{
    let mut found = first;
    'others: while stands(tokens, *at, Front::Bar) {
        found = add_other(alloc, text, tokens, at, from, found, left)?;
    }
    Ok(found)
}

/// Reads one `as` with its name behind a pattern which begins at `from`.
fn add_name(
    alloc: Global,
    tokens: &[Token],
    at: &mut usize,
    from: usize,
    first: Found,
    left: u32,
) -> Result<Found, ParseErr>
    requires { front (drop at.old tokens.now) ≡ As }
    ensures ok { IfOk result (HasName left (drop from tokens.now) (drop at.old tokens.now) (drop at.new tokens.now) first) }
    ensures err { IfErr result (Says tokens.now (NoNames left (drop from tokens.now) (drop at.old tokens.now) first)) }
{
    if first.depth >= left {
        return Err(ParseErr::Refused(give_up(tokens, *at, first)));
    }
    pass(tokens, at);
    let name = take(tokens, at, Front::Lower)?;
    Ok(named(alloc, tokens, from, *at, first, name)?)
}

/// Reads the names that `as` gives to a pattern which begins at `from`.
fn add_names(
    alloc: Global,
    tokens: &[Token],
    at: &mut usize,
    from: usize,
    first: Found,
    left: u32,
) -> Result<Found, ParseErr>
    requires { first.depth ≤ left }
    ensures ok { IfOk result (HasNames left (drop from tokens.now) (drop at.old tokens.now) (drop at.new tokens.now) first) }
    ensures err { IfErr result (Says tokens.now (NoNames left (drop from tokens.now) (drop at.old tokens.now) first)) }
{
    let mut found = first;
    'names: while stands(tokens, *at, Front::As) {
        found = add_name(alloc, tokens, at, from, found, left)?;
    }
    Ok(found)
}

/// Reads the pattern at a place, which may be as deep as `left`.
#[cycle(patterns)]
pub fn read_pattern(
    alloc: Global,
    text: &[u8],
    tokens: &[Token],
    at: &mut usize,
    left: u32,
) -> Result<Found, ParseErr>
    requires { All (IsSound text.now) tokens.now }
    ensures ok { IfOk result (IsFound text.now Pattern left (drop at.old tokens.now) (drop at.new tokens.now)) }
    ensures err { IfErr result (Says tokens.now (NoTree text.now Pattern left (drop at.old tokens.now))) }
{
    let from = *at;
    let first = read_cons(alloc, text, tokens, at, left)?;
    let tuple = add_tuple(alloc, text, tokens, at, from, first, left)?;
    let all = add_others(alloc, text, tokens, at, from, tuple, left)?;
    add_names(alloc, tokens, at, from, all, left)
}
