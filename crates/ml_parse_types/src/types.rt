ghost use Rattle.std.specs.Prelude.{◌≡◌, ◌≢◌, ◌+◌, ◌<◌, ◌≤◌, ◌^◌, suc, max, drop, Some, None, IfOk, IfErr, IfSome, IfNone};
ghost use Rattle.ml_cursor.specs.Says.{Says};
ghost use Rattle.ml_tree.specs.declared.types.TyExpr.{TyExpr as Tree};
ghost use Rattle.ml_parse_types.specs.declared.looks.TypeStart.TheVariants.{Variable, Named, Group};
ghost use Rattle.ml_parse_types.specs.Looks.{no_words};
ghost use Rattle.ml_parse_types.specs.Types.{got, read, postfix, product, group, an_arg, an_arrow, AtomBy, NamesFrom, ReadsOperand, ReadsPart, ReadsList, ReadsSide, SideFrom, ReadsType};
ghost use Rattle.ml_parse_types.specs.Readers.{IsFound, IsDeep, IsNone, ReadsAtom, ReadsWhole};

use crate::looks::{After, Row, TypeStart, behind_part, is_arrow, is_name, type_start};
use crate::make::{make_applied, make_arg, make_arrow, make_postfix, make_tuple, make_variable};
use crate::words::{no_words, read_words};
use ml_cursor::{ParseErr, extent, pass, refusal_at, skip, span_at};
use ml_lexer::Token;
use ml_tree::{Arg, TyExpr, Words};
use oxml_base::{Items, Span};
use std::alloc::Global;

/// The greatest depth of a type: type expressions and type parentheses on a path.
pub const MAX_DEPTH: u32 = 1_000;

/// A type with its depth.
#[derive(Drop)]
struct TypeFound {
    ty: TyExpr,
    depth: u32,
}

/// A side of an arrow with its depth.
#[derive(Drop)]
struct SideFound {
    arg: Arg,
    depth: u32,
}

/// The parts of a row with the greatest depth among them.
#[derive(Drop)]
struct ListFound {
    list: Items<TyExpr>,
    depth: u32,
}

fn deepest(one: u32, other: u32) -> u32
    ensures { result ≡ max one other }
{
    one.max(other)
}

/// The type variable at a place.
#[tactic(auto, using(crate::proofs::TypeParts::a_lone_variable))]
fn variable(tokens: &[Token], at: &mut usize) -> TypeFound
    ensures reads { AtomBy Variable (drop at.old tokens.now) (read result.ty result.depth (drop at.new tokens.now)) }
    ensures depth { result.depth ≡ 1 }
{
    let span = span_at(tokens, *at);
    pass(tokens, at);
    TypeFound {
        ty: make_variable(span),
        depth: 1,
    }
}

/// The name at a place, applied to nothing.
#[tactic(auto, using(crate::proofs::TypeParts::a_lone_name))]
fn bare_name(alloc: Global, tokens: &[Token], at: &mut usize) -> TypeFound
    ensures reads { AtomBy Named (drop at.old tokens.now) (read result.ty result.depth (drop at.new tokens.now)) }
    ensures depth { result.depth ≡ 1 }
{
    let span = span_at(tokens, *at);
    pass(tokens, at);
    TypeFound {
        ty: make_applied(span, span, Items::new(alloc)),
        depth: 1,
    }
}

/// The name at a place, applied to the type that stands before it from `start` on.
#[tactic(auto, using(crate::proofs::TypeNodes::a_postfix))]
fn postfix(
    alloc: Global,
    tokens: &[Token],
    start: usize,
    at: &mut usize,
    found: TypeFound,
) -> Result<TypeFound, ParseErr>
    requires { found.depth + 1 < 2 ^ 32 }
    ensures ok { IfOk result (λ f. read f.ty f.depth (drop at.new tokens.now) ≡
        postfix (drop start tokens.now) (read found.ty found.depth (drop at.old tokens.now))) }
    ensures err { IfErr result (λ e. e ≡ ParseErr.NoMemory) }
{
    let name = span_at(tokens, *at);
    pass(tokens, at);
    Ok(TypeFound {
        ty: make_postfix(alloc, extent(tokens, start, *at), name, found.ty)?,
        depth: found.depth + 1,
    })
}

/// The names behind a type, each applied to what stands before it.
#[tactic(auto, using(crate::proofs::TypeParts::names_none, crate::proofs::TypeParts::names_more, crate::proofs::TypeParts::names_end, crate::proofs::TypeParts::names_deep))]
fn read_names(
    alloc: Global,
    tokens: &[Token],
    start: usize,
    at: &mut usize,
    atom: TypeFound,
    left: u32,
) -> Result<TypeFound, ParseErr>
    requires { atom.depth ≤ left }
    ensures ok { IfOk result (λ f. IsFound (NamesFrom (drop start tokens.now) (read atom.ty atom.depth (drop at.old tokens.now)))
        left (read f.ty f.depth (drop at.new tokens.now))) }
    ensures err { IfErr result (Says tokens.now
        (IsDeep (NamesFrom (drop start tokens.now) (read atom.ty atom.depth (drop at.old tokens.now))) left)) }
{
    let mut found = atom;
    'names: while is_name(tokens, *at) {
        if found.depth >= left {
            return Err(ParseErr::Refused(refusal_at(tokens, *at)));
        }
        found = postfix(alloc, tokens, start, at, found)?;
    }
    Ok(found)
}

/// What stands in parentheses from `start` on: one type, or several arguments with a name behind.
#[tactic(auto, using(crate::proofs::TypeNodes::group_one, crate::proofs::TypeNodes::group_several, crate::proofs::TypeNodes::group_unnamed))]
fn grouped(
    tokens: &[Token],
    start: usize,
    at: &mut usize,
    found: ListFound,
) -> Result<TypeFound, ParseErr>
    requires { found.depth + 1 < 2 ^ 32 }
    ensures ok { IfOk result (λ f. group (drop start tokens.now) (read found.list found.depth (drop at.old tokens.now)) ≡
        Some (read f.ty f.depth (drop at.new tokens.now))) }
    ensures err { IfErr result (Says tokens.now
        (group (drop start tokens.now) (read found.list found.depth (drop at.old tokens.now)) ≡ None)) }
{
    let ListFound { mut list, depth } = found;
    if list.len() == 1 {
        return match list.pop() {
            Some(ty) => Ok(TypeFound {
                ty,
                depth: depth + 1,
            }),
            None => unreachable!(),
        };
    }
    if !is_name(tokens, *at) {
        return Err(ParseErr::Refused(refusal_at(tokens, *at)));
    }
    let name = span_at(tokens, *at);
    pass(tokens, at);
    Ok(TypeFound {
        ty: make_applied(extent(tokens, start, *at), name, list),
        depth: depth + 1,
    })
}

/// A row of operands as one type: a single one is itself.
#[tactic(auto, using(crate::proofs::TypeNodes::product_one, crate::proofs::TypeNodes::product_several, crate::proofs::TypeNodes::product_deep))]
fn product(
    tokens: &[Token],
    from: usize,
    at: usize,
    found: ListFound,
    left: u32,
) -> Result<TypeFound, ParseErr>
    requires { found.depth ≤ left }
    ensures ok { IfOk result (λ f. product (drop from tokens.now) (read found.list found.depth (drop at tokens.now)) ≡
        read f.ty f.depth (drop at tokens.now)) }
    ensures small { IfOk result (λ f. f.depth ≤ left) }
    ensures err { IfErr result (Says tokens.now
        (left < (product (drop from tokens.now) (read found.list found.depth (drop at tokens.now))).depth)) }
{
    let ListFound { mut list, depth } = found;
    if list.len() == 1 {
        return match list.pop() {
            Some(ty) => Ok(TypeFound { ty, depth }),
            None => unreachable!(),
        };
    }
    if depth >= left {
        return Err(ParseErr::Refused(refusal_at(tokens, at)));
    }
    Ok(TypeFound {
        ty: make_tuple(extent(tokens, from, at), list),
        depth: depth + 1,
    })
}

/// The type of a side that has no words of its own.
fn without_words(arg: Arg) -> Option<TyExpr>
    ensures some { IfSome result (λ t. arg ≡ an_arg no_words t) }
    ensures none { IfNone result ((t : Tree) → arg ≢ an_arg no_words t) }
{
    let Arg { words, ty } = arg;
    if words.loc.is_none() && words.uni.is_none() && words.aff.is_none() {
        Some(ty)
    } else {
        None
    }
}

/// An arrow between two sides, with no words before the whole.
fn arrow(
    alloc: Global,
    span: Span,
    words: Words,
    from: TypeFound,
    to: SideFound,
) -> Result<SideFound, ParseErr>
    requires from { from.depth + 1 < 2 ^ 32 }
    requires to { to.depth + 1 < 2 ^ 32 }
    ensures ok { IfOk result (λ s. s.arg ≡ an_arg no_words (an_arrow span (an_arg words from.ty) to.arg)) }
    ensures depth { IfOk result (λ s. s.depth ≡ suc (max from.depth to.depth)) }
    ensures err { IfErr result (λ e. e ≡ ParseErr.NoMemory) }
{
    let depth = deepest(from.depth, to.depth) + 1;
    let ty = make_arrow(alloc, span, make_arg(words, from.ty), to.arg)?;
    Ok(SideFound {
        arg: make_arg(no_words(), ty),
        depth,
    })
}

#[cycle(types)]
#[tactic(auto, using(crate::proofs::TypeParts::atom_zero, crate::proofs::TypeParts::atom_by, crate::proofs::TypeParts::atom_grouped, crate::proofs::TypeParts::atom_no_group, crate::proofs::TypeParts::atom_other))]
fn read_atom(
    alloc: Global,
    tokens: &[Token],
    at: &mut usize,
    left: u32,
) -> Result<TypeFound, ParseErr>
    ensures ok { IfOk result (λ f. IsFound (ReadsAtom (drop at.old tokens.now)) left
        (read f.ty f.depth (drop at.new tokens.now))) }
    ensures err { IfErr result (Says tokens.now (IsDeep (ReadsAtom (drop at.old tokens.now)) left)) }
{
    if left == 0 {
        return Err(ParseErr::Refused(refusal_at(tokens, *at)));
    }
    match type_start(tokens, *at) {
        TypeStart::Variable => Ok(variable(tokens, at)),
        TypeStart::Named => Ok(bare_name(alloc, tokens, at)),
        TypeStart::Group => read_group(alloc, tokens, at, left - 1),
        TypeStart::Other => Err(ParseErr::Refused(refusal_at(tokens, *at))),
    }
}

#[cycle(types)]
#[tactic(auto, using(crate::proofs::TypeParts::group_read, crate::proofs::TypeParts::group_no_list, crate::proofs::TypeParts::group_no_name))]
fn read_group(
    alloc: Global,
    tokens: &[Token],
    at: &mut usize,
    left: u32,
) -> Result<TypeFound, ParseErr>
    requires { left + 1 < 2 ^ 32 }
    ensures ok { IfOk result (λ f. IsFound (AtomBy Group (drop at.old tokens.now)) (left + 1)
        (read f.ty f.depth (drop at.new tokens.now))) }
    ensures err { IfErr result (Says tokens.now (IsDeep (AtomBy Group (drop at.old tokens.now)) (left + 1))) }
{
    let start = *at;
    pass(tokens, at);
    let list = read_list(alloc, tokens, at, Row::Arguments, left)?;
    grouped(tokens, start, at, list)
}

#[cycle(types)]
#[tactic(auto, using(crate::proofs::TypeParts::operand_read, crate::proofs::TypeParts::operand_no_atom, crate::proofs::TypeParts::operand_no_names))]
fn read_operand(
    alloc: Global,
    tokens: &[Token],
    at: &mut usize,
    left: u32,
) -> Result<TypeFound, ParseErr>
    ensures ok { IfOk result (λ f. IsFound (ReadsOperand (drop at.old tokens.now)) left
        (read f.ty f.depth (drop at.new tokens.now))) }
    ensures err { IfErr result (Says tokens.now (IsDeep (ReadsOperand (drop at.old tokens.now)) left)) }
{
    let start = *at;
    let atom = read_atom(alloc, tokens, at, left)?;
    read_names(alloc, tokens, start, at, atom, left)
}

#[cycle(types)]
#[tactic(auto, using(crate::proofs::TypeParts::part_alone, crate::proofs::TypeParts::part_factor, crate::proofs::TypeParts::part_argument, crate::proofs::TypeParts::no_alone, crate::proofs::TypeParts::no_factor, crate::proofs::TypeParts::no_argument))]
fn read_part(
    alloc: Global,
    tokens: &[Token],
    at: &mut usize,
    row: Row,
    left: u32,
) -> Result<TypeFound, ParseErr>
    ensures ok { IfOk result (λ f. IsFound (ReadsPart row (drop at.old tokens.now)) left
        (read f.ty f.depth (drop at.new tokens.now))) }
    ensures err { IfErr result (Says tokens.now (IsDeep (ReadsPart row (drop at.old tokens.now)) left)) }
{
    match row {
        Row::Arguments => read_whole(alloc, tokens, at, Row::Factors, left),
        Row::Alone => read_operand(alloc, tokens, at, left),
        Row::Factors => read_operand(alloc, tokens, at, left),
    }
}

#[cycle(types)]
#[tactic(auto, using(crate::proofs::TypeLists::row_none, crate::proofs::TypeLists::row_more, crate::proofs::TypeLists::row_end, crate::proofs::TypeLists::row_shorter, crate::proofs::TypeLists::row_small))]
fn read_list(
    alloc: Global,
    tokens: &[Token],
    at: &mut usize,
    row: Row,
    left: u32,
) -> Result<ListFound, ParseErr>
    ensures ok { IfOk result (λ f. IsFound (ReadsList row (drop at.old tokens.now)) left
        (read f.list f.depth (drop at.new tokens.now))) }
    ensures err { IfErr result (Says tokens.now (IsDeep (ReadsList row (drop at.old tokens.now)) left)) }
{
    let mut list = Items::new(alloc);
    let mut depth = 0;
    'parts: loop {
        let found = read_part(alloc, tokens, at, row, left)?;
        depth = deepest(depth, found.depth);
        list.push(found.ty)?;
        match behind_part(row, tokens, *at) {
            After::Goes => pass(tokens, at),
            After::Ends(tail) => {
                skip(tokens, at, tail);
                return Ok(ListFound { list, depth });
            }
            After::Fails => return Err(ParseErr::Refused(refusal_at(tokens, *at))),
        }
    }
}

#[cycle(types)]
#[tactic(auto, using(crate::proofs::TypeParts::side_read))]
fn read_side(
    alloc: Global,
    tokens: &[Token],
    at: &mut usize,
    row: Row,
    left: u32,
) -> Result<SideFound, ParseErr>
    ensures ok { IfOk result (λ f. IsFound (ReadsSide row (drop at.old tokens.now)) left
        (read f.arg f.depth (drop at.new tokens.now))) }
    ensures err { IfErr result (Says tokens.now (IsDeep (ReadsSide row (drop at.old tokens.now)) left)) }
{
    let start = *at;
    let words = read_words(tokens, at)?;
    let from = *at;
    let list = read_list(alloc, tokens, at, row, left)?;
    let product = product(tokens, from, *at, list, left)?;
    read_arrow(alloc, tokens, start, at, row, words, product, left)
}

/// What goes on behind the words and the product that a side begins with.
#[cycle(types)]
#[tactic(auto, using(crate::proofs::TypeParts::arrow_none, crate::proofs::TypeParts::arrow_deep, crate::proofs::TypeParts::arrow_read))]
fn read_arrow(
    alloc: Global,
    tokens: &[Token],
    start: usize,
    at: &mut usize,
    row: Row,
    words: Words,
    product: TypeFound,
    left: u32,
) -> Result<SideFound, ParseErr>
    requires { product.depth ≤ left }
    ensures ok { IfOk result (λ f. IsFound (SideFrom row (drop start tokens.now) words (read product.ty product.depth (drop at.old tokens.now))) left
        (read f.arg f.depth (drop at.new tokens.now))) }
    ensures err { IfErr result (Says tokens.now (IsDeep (SideFrom row (drop start tokens.now) words (read product.ty product.depth (drop at.old tokens.now))) left)) }
{
    if !is_arrow(tokens, *at) {
        return Ok(SideFound {
            arg: make_arg(words, product.ty),
            depth: product.depth,
        });
    }
    if product.depth >= left {
        return Err(ParseErr::Refused(refusal_at(tokens, *at)));
    }
    pass(tokens, at);
    let to = read_side(alloc, tokens, at, row, left - 1)?;
    arrow(alloc, extent(tokens, start, *at), words, product, to)
}

/// A type: a side without words of its own.
#[cycle(types)]
#[tactic(auto, using(crate::proofs::TypeParts::whole_read, crate::proofs::TypeParts::whole_worded, crate::proofs::TypeParts::whole_no_side))]
fn read_whole(
    alloc: Global,
    tokens: &[Token],
    at: &mut usize,
    row: Row,
    left: u32,
) -> Result<TypeFound, ParseErr>
    ensures ok { IfOk result (λ f. IsFound (ReadsWhole row (drop at.old tokens.now)) left
        (read f.ty f.depth (drop at.new tokens.now))) }
    ensures err { IfErr result (Says tokens.now (IsDeep (ReadsWhole row (drop at.old tokens.now)) left)) }
{
    let found = read_side(alloc, tokens, at, row, left)?;
    let SideFound { arg, depth } = found;
    match without_words(arg) {
        Some(ty) => Ok(TypeFound { ty, depth }),
        None => Err(ParseErr::Refused(refusal_at(tokens, *at))),
    }
}

/// The type at a place, which goes past it.
#[tactic(auto, using(crate::proofs::TypeParts::type_read, crate::proofs::TypeParts::type_none))]
pub fn read_type(
    alloc: Global,
    tokens: &[Token],
    at: &mut usize,
    row: Row,
) -> Result<TyExpr, ParseErr>
    ensures ok { IfOk result (λ t. ReadsType row (drop at.old tokens.now) (got t (drop at.new tokens.now))) }
    ensures err { IfErr result (Says tokens.now (IsNone (ReadsType row) (drop at.old tokens.now))) }
{
    Ok(read_whole(alloc, tokens, at, row, MAX_DEPTH)?.ty)
}
