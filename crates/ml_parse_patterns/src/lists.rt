ghost use Rattle.std.specs.Prelude.{◌≡◌, ◌≤◌, drop, All, IfOk, IfErr};
ghost use Rattle.ml_lexer.specs.Tokens.{IsSound};
ghost use Rattle.ml_cursor.specs.Says.{Says};
ghost use Rattle.ml_parse_patterns.specs.Patterns.{level_of};
ghost use Rattle.ml_parse_patterns.specs.Readings.{IsFound, NoTree, IsLonger, NoList, IsField, NoField, AreFields, NoFields};

use crate::found::{Found, FoundField, FoundFields, FoundList};
use crate::levels::{read_cons, read_pattern};
use crate::looks::{After, AfterField, Leaf, Listing, after_at, after_field_at, pass_all};
use crate::nodes::{give_up_fields, give_up_list, leaf_kind, node};
use ml_cursor::{Front, ParseErr, accept, refusal_at, take};
use ml_lexer::Token;
use ml_tree::{FieldPat, Pat};
use oxml_base::Items;
use std::alloc::Global;

/// Reads a pattern of a list.
#[cycle(patterns)]
fn read_part(
    alloc: Global,
    text: &[u8],
    tokens: &[Token],
    at: &mut usize,
    listing: Listing,
    left: u32,
) -> Result<Found, ParseErr>
    requires { All (IsSound text.now) tokens.now }
    ensures ok { IfOk result (IsFound text.now (level_of listing) left (drop at.old tokens.now) (drop at.new tokens.now)) }
    ensures err { IfErr result (Says tokens.now (NoTree text.now (level_of listing) left (drop at.old tokens.now))) }
{
    match listing {
        Listing::Components => read_cons(alloc, text, tokens, at, left),
        Listing::Elements => read_pattern(alloc, text, tokens, at, left),
    }
}

/// Reads the patterns of a list up to its end, and puts them behind others of a depth.
#[cycle(patterns)]
pub fn read_list(
    alloc: Global,
    text: &[u8],
    tokens: &[Token],
    at: &mut usize,
    listing: Listing,
    before: Items<Pat>,
    depth: u32,
    left: u32,
) -> Result<FoundList, ParseErr>
    requires texts { All (IsSound text.now) tokens.now }
    requires small { depth ≤ left }
    ensures ok { IfOk result (IsLonger text.now listing left (drop at.old tokens.now) (drop at.new tokens.now) before depth) }
    ensures err { IfErr result (Says tokens.now (NoList text.now listing left (drop at.old tokens.now))) }
{
    let mut list = before;
    let mut deepest = depth;
    'list: loop {
        let one = read_part(alloc, text, tokens, at, listing, left)?;
        deepest = deepest.max(one.depth);
        list.push(one.pat)?;
        match after_at(listing, tokens, *at) {
            After::Goes(count) => pass_all(tokens, at, count),
            After::Stops(count) => {
                pass_all(tokens, at, count);
                return Ok(FoundList {
                    list,
                    depth: deepest,
                });
            }
            After::Fails => return Err(ParseErr::Refused(give_up_list(tokens, *at, list))),
        }
    }
}

/// Reads a field of a record pattern.
#[cycle(patterns)]
fn read_field(
    alloc: Global,
    text: &[u8],
    tokens: &[Token],
    at: &mut usize,
    left: u32,
) -> Result<FoundField, ParseErr>
    requires { All (IsSound text.now) tokens.now }
    ensures ok { IfOk result (IsField text.now left (drop at.old tokens.now) (drop at.new tokens.now)) }
    ensures err { IfErr result (Says tokens.now (NoField text.now left (drop at.old tokens.now))) }
{
    let from = *at;
    let name = take(tokens, at, Front::Lower)?;
    if accept(tokens, at, Front::Equal) {
        let read = read_pattern(alloc, text, tokens, at, left)?;
        return Ok(FoundField {
            field: FieldPat {
                id: 0,
                name,
                pat: read.pat,
            },
            depth: read.depth,
        });
    }
    if left == 0 {
        return Err(ParseErr::Refused(refusal_at(tokens, from)));
    }
    let pat = node(tokens, from, *at, leaf_kind(Leaf::Bound(name)));
    Ok(FoundField {
        field: FieldPat { id: 0, name, pat },
        depth: 1,
    })
}

/// Reads the fields of a record pattern up to its closing brace.
#[cycle(patterns)]
pub fn read_fields(
    alloc: Global,
    text: &[u8],
    tokens: &[Token],
    at: &mut usize,
    left: u32,
) -> Result<FoundFields, ParseErr>
    requires { All (IsSound text.now) tokens.now }
    ensures ok { IfOk result (AreFields text.now left (drop at.old tokens.now) (drop at.new tokens.now)) }
    ensures err { IfErr result (Says tokens.now (NoFields text.now left (drop at.old tokens.now))) }
{
    let mut list = Items::new(alloc);
    let mut deepest = 0;
    'fields: loop {
        let one = read_field(alloc, text, tokens, at, left)?;
        deepest = deepest.max(one.depth);
        list.push(one.field)?;
        match after_field_at(tokens, *at) {
            AfterField::Next => pass_all(tokens, at, 1),
            AfterField::Ends(more, count) => {
                pass_all(tokens, at, count);
                return Ok(FoundFields {
                    list,
                    more,
                    depth: deepest,
                });
            }
            AfterField::Broken => return Err(ParseErr::Refused(give_up_fields(tokens, *at, list))),
        }
    }
}
