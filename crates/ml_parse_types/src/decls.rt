ghost use Rattle.std.specs.Prelude.{◌≡◌, drop, IfOk, IfErr};
ghost use Rattle.ml_cursor.specs.Says.{Says};
ghost use Rattle.ml_parse_types.specs.declared.looks.VarsStart.TheVariants.{OneVar};
ghost use Rattle.ml_parse_types.specs.Types.{got};
ghost use Rattle.ml_parse_types.specs.Decls.{ReadsItems, ReadsVar, var_behind, VarsBy, ReadsVars, ReadsArg, arg_behind, ReadsArgs, ReadsCon, con_behind, ReadsField, field_behind, ReadsBody, ReadsDecl, ReadsDecls, decl_behind};
ghost use Rattle.ml_parse_types.specs.Readers.{IsNone};

use crate::looks::{
    After, BodyStart, Row, VarsStart, behind_con, behind_decl, behind_factor, behind_field,
    behind_var, body_start, is_of, vars_start,
};
use crate::make::make_arg;
use crate::types::read_type;
use crate::words::read_words;
use ml_cursor::{Front, ParseErr, pass, refusal_at, skip, span_at, take};
use ml_lexer::Token;
use ml_tree::{Arg, ConDecl, Decl, DeclBody, FieldDecl};
use oxml_base::{Items, Span};
use std::alloc::Global;

/// One variable of several.
fn read_var(tokens: &[Token], at: &mut usize) -> Result<Span, ParseErr>
    ensures ok { IfOk result (λ v. ReadsVar (drop at.old tokens.now) (got v (drop at.new tokens.now))) }
    ensures err { IfErr result (Says tokens.now (IsNone ReadsVar (drop at.old tokens.now))) }
{
    take(tokens, at, Front::TypeVar)
}

/// Variables with `,` between them, up to a `)`.
#[tactic(auto, using(crate::proofs::ItemLists::items_none, crate::proofs::ItemLists::items_more, crate::proofs::ItemLists::items_end, crate::proofs::ItemLists::items_shorter, crate::proofs::Unique::same_var, crate::proofs::Shorter::var_rest))]
fn read_vars(alloc: Global, tokens: &[Token], at: &mut usize) -> Result<Items<Span>, ParseErr>
    ensures ok { IfOk result (λ l. ReadsItems ReadsVar var_behind (drop at.old tokens.now) (got l (drop at.new tokens.now))) }
    ensures err { IfErr result (Says tokens.now (IsNone (ReadsItems ReadsVar var_behind) (drop at.old tokens.now))) }
{
    let mut list = Items::new(alloc);
    'vars: loop {
        list.push(read_var(tokens, at)?)?;
        match behind_var(tokens, *at) {
            After::Goes => pass(tokens, at),
            After::Ends(tail) => {
                skip(tokens, at, tail);
                return Ok(list);
            }
            After::Fails => return Err(ParseErr::Refused(refusal_at(tokens, *at))),
        }
    }
}

/// The one variable at a place.
#[tactic(auto, using(crate::proofs::DeclParts::a_lone_var))]
fn one_var(alloc: Global, tokens: &[Token], at: &mut usize) -> Result<Items<Span>, ParseErr>
    ensures ok { IfOk result (λ l. VarsBy OneVar (drop at.old tokens.now) (got l (drop at.new tokens.now))) }
    ensures err { IfErr result (λ e. e ≡ ParseErr.NoMemory) }
{
    let mut list = Items::new(alloc);
    list.push(span_at(tokens, *at))?;
    pass(tokens, at);
    Ok(list)
}

/// The variables in front of a declared name.
#[tactic(auto, using(crate::proofs::DeclParts::vars_none, crate::proofs::DeclParts::vars_one, crate::proofs::DeclParts::vars_many))]
fn read_variables(alloc: Global, tokens: &[Token], at: &mut usize) -> Result<Items<Span>, ParseErr>
    ensures ok { IfOk result (λ o. ReadsVars (drop at.old tokens.now) (got o (drop at.new tokens.now))) }
    ensures err { IfErr result (Says tokens.now (IsNone ReadsVars (drop at.old tokens.now))) }
{
    match vars_start(tokens, *at) {
        VarsStart::NoVars => Ok(Items::new(alloc)),
        VarsStart::OneVar => one_var(alloc, tokens, at),
        VarsStart::VarGroup => {
            pass(tokens, at);
            read_vars(alloc, tokens, at)
        }
    }
}

/// An arg of a constructor.
#[tactic(auto, using(crate::proofs::DeclParts::arg_read))]
fn read_arg(alloc: Global, tokens: &[Token], at: &mut usize) -> Result<Arg, ParseErr>
    ensures ok { IfOk result (λ o. ReadsArg (drop at.old tokens.now) (got o (drop at.new tokens.now))) }
    ensures err { IfErr result (Says tokens.now (IsNone ReadsArg (drop at.old tokens.now))) }
{
    let words = read_words(tokens, at)?;
    let ty = read_type(alloc, tokens, at, Row::Alone)?;
    Ok(make_arg(words, ty))
}

/// Args with `*` between them.
#[tactic(auto, using(crate::proofs::ItemLists::items_none, crate::proofs::ItemLists::items_more, crate::proofs::ItemLists::items_end, crate::proofs::ItemLists::items_shorter, crate::proofs::Unique::same_arg, crate::proofs::Shorter::arg_rest))]
fn read_args(alloc: Global, tokens: &[Token], at: &mut usize) -> Result<Items<Arg>, ParseErr>
    ensures ok { IfOk result (λ o. ReadsItems ReadsArg arg_behind (drop at.old tokens.now) (got o (drop at.new tokens.now))) }
    ensures err { IfErr result (Says tokens.now (IsNone (ReadsItems ReadsArg arg_behind) (drop at.old tokens.now))) }
{
    let mut list = Items::new(alloc);
    'more: loop {
        list.push(read_arg(alloc, tokens, at)?)?;
        match behind_factor(tokens, *at) {
            After::Goes => pass(tokens, at),
            After::Ends(tail) => {
                skip(tokens, at, tail);
                return Ok(list);
            }
            After::Fails => return Err(ParseErr::Refused(refusal_at(tokens, *at))),
        }
    }
}

/// What stands behind the name of a constructor.
#[tactic(auto, using(crate::proofs::DeclParts::args_none, crate::proofs::DeclParts::args_many))]
fn read_con_args(alloc: Global, tokens: &[Token], at: &mut usize) -> Result<Items<Arg>, ParseErr>
    ensures ok { IfOk result (λ o. ReadsArgs (drop at.old tokens.now) (got o (drop at.new tokens.now))) }
    ensures err { IfErr result (Says tokens.now (IsNone ReadsArgs (drop at.old tokens.now))) }
{
    if !is_of(tokens, *at) {
        return Ok(Items::new(alloc));
    }
    pass(tokens, at);
    read_args(alloc, tokens, at)
}

#[tactic(auto, using(crate::proofs::DeclParts::con_read))]
fn read_con(alloc: Global, tokens: &[Token], at: &mut usize) -> Result<ConDecl, ParseErr>
    ensures ok { IfOk result (λ o. ReadsCon (drop at.old tokens.now) (got o (drop at.new tokens.now))) }
    ensures err { IfErr result (Says tokens.now (IsNone ReadsCon (drop at.old tokens.now))) }
{
    let name = take(tokens, at, Front::Upper)?;
    let args = read_con_args(alloc, tokens, at)?;
    Ok(ConDecl { name, args })
}

/// Constructors with `|` between them.
#[tactic(auto, using(crate::proofs::ItemLists::items_none, crate::proofs::ItemLists::items_more, crate::proofs::ItemLists::items_end, crate::proofs::ItemLists::items_shorter, crate::proofs::Unique::same_con, crate::proofs::Shorter::con_rest))]
fn read_cons(alloc: Global, tokens: &[Token], at: &mut usize) -> Result<Items<ConDecl>, ParseErr>
    ensures ok { IfOk result (λ o. ReadsItems ReadsCon con_behind (drop at.old tokens.now) (got o (drop at.new tokens.now))) }
    ensures err { IfErr result (Says tokens.now (IsNone (ReadsItems ReadsCon con_behind) (drop at.old tokens.now))) }
{
    let mut list = Items::new(alloc);
    'cons: loop {
        list.push(read_con(alloc, tokens, at)?)?;
        match behind_con(tokens, *at) {
            After::Goes => pass(tokens, at),
            After::Ends(tail) => {
                skip(tokens, at, tail);
                return Ok(list);
            }
            After::Fails => return Err(ParseErr::Refused(refusal_at(tokens, *at))),
        }
    }
}

#[tactic(auto, using(crate::proofs::DeclParts::field_read))]
fn read_field(alloc: Global, tokens: &[Token], at: &mut usize) -> Result<FieldDecl, ParseErr>
    ensures ok { IfOk result (λ o. ReadsField (drop at.old tokens.now) (got o (drop at.new tokens.now))) }
    ensures err { IfErr result (Says tokens.now (IsNone ReadsField (drop at.old tokens.now))) }
{
    let words = read_words(tokens, at)?;
    let name = take(tokens, at, Front::Lower)?;
    take(tokens, at, Front::Colon)?;
    let ty = read_type(alloc, tokens, at, Row::Factors)?;
    Ok(FieldDecl {
        name,
        arg: make_arg(words, ty),
    })
}

/// Fields with `;` between them, up to a `}`.
#[tactic(auto, using(crate::proofs::ItemLists::items_none, crate::proofs::ItemLists::items_more, crate::proofs::ItemLists::items_end, crate::proofs::ItemLists::items_shorter, crate::proofs::Unique::same_field, crate::proofs::Shorter::field_rest))]
fn read_fields(
    alloc: Global,
    tokens: &[Token],
    at: &mut usize,
) -> Result<Items<FieldDecl>, ParseErr>
    ensures ok { IfOk result (λ o. ReadsItems ReadsField field_behind (drop at.old tokens.now) (got o (drop at.new tokens.now))) }
    ensures err { IfErr result (Says tokens.now (IsNone (ReadsItems ReadsField field_behind) (drop at.old tokens.now))) }
{
    let mut list = Items::new(alloc);
    'fields: loop {
        list.push(read_field(alloc, tokens, at)?)?;
        match behind_field(tokens, *at) {
            After::Goes => pass(tokens, at),
            After::Ends(tail) => {
                skip(tokens, at, tail);
                return Ok(list);
            }
            After::Fails => return Err(ParseErr::Refused(refusal_at(tokens, *at))),
        }
    }
}

/// What a declared name stands for.
#[tactic(auto, using(crate::proofs::DeclParts::body_barred, crate::proofs::DeclParts::body_variant, crate::proofs::DeclParts::body_fields, crate::proofs::DeclParts::body_alias))]
fn read_body(alloc: Global, tokens: &[Token], at: &mut usize) -> Result<DeclBody, ParseErr>
    ensures ok { IfOk result (λ o. ReadsBody (drop at.old tokens.now) (got o (drop at.new tokens.now))) }
    ensures err { IfErr result (Says tokens.now (IsNone ReadsBody (drop at.old tokens.now))) }
{
    match body_start(tokens, *at) {
        BodyStart::Bar => {
            pass(tokens, at);
            Ok(DeclBody::Variant(read_cons(alloc, tokens, at)?))
        }
        BodyStart::Constructor => Ok(DeclBody::Variant(read_cons(alloc, tokens, at)?)),
        BodyStart::Brace => {
            pass(tokens, at);
            Ok(DeclBody::Fields(read_fields(alloc, tokens, at)?))
        }
        BodyStart::Other => Ok(DeclBody::Alias(read_type(alloc, tokens, at, Row::Factors)?)),
    }
}

/// One declaration: `[vars] name = body`.
#[tactic(auto, using(crate::proofs::DeclParts::decl_read))]
fn read_decl(alloc: Global, tokens: &[Token], at: &mut usize) -> Result<Decl, ParseErr>
    ensures ok { IfOk result (λ o. ReadsDecl (drop at.old tokens.now) (got o (drop at.new tokens.now))) }
    ensures err { IfErr result (Says tokens.now (IsNone ReadsDecl (drop at.old tokens.now))) }
{
    let vars = read_variables(alloc, tokens, at)?;
    let name = take(tokens, at, Front::Lower)?;
    take(tokens, at, Front::Equal)?;
    let body = read_body(alloc, tokens, at)?;
    Ok(Decl { name, vars, body })
}

/// The declarations of a `type` item, with `and` between them, and the place goes past them. The
/// word `type` has been passed.
#[tactic(auto, using(crate::proofs::ItemLists::items_none, crate::proofs::ItemLists::items_more, crate::proofs::ItemLists::items_end, crate::proofs::ItemLists::items_shorter, crate::proofs::Unique::same_decl, crate::proofs::Shorter::decl_rest))]
pub fn read_decls(alloc: Global, tokens: &[Token], at: &mut usize) -> Result<Items<Decl>, ParseErr>
    ensures ok { IfOk result (λ o. ReadsDecls (drop at.old tokens.now) (got o (drop at.new tokens.now))) }
    ensures err { IfErr result (Says tokens.now (IsNone ReadsDecls (drop at.old tokens.now))) }
{
    let mut list = Items::new(alloc);
    'decls: loop {
        list.push(read_decl(alloc, tokens, at)?)?;
        match behind_decl(tokens, *at) {
            After::Goes => pass(tokens, at),
            After::Ends(tail) => {
                skip(tokens, at, tail);
                return Ok(list);
            }
            After::Fails => return Err(ParseErr::Refused(refusal_at(tokens, *at))),
        }
    }
}
