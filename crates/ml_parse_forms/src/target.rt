//! What stands before the value of a bind, and the names of other forms.
ghost use Rattle.std.specs.Prelude.{◌≡◌, ◌≤◌, drop, true, All, IfOk, IfErr};
ghost use Rattle.ml_lexer.specs.Tokens.{IsSound};
ghost use Rattle.ml_cursor.specs.declared.front.Front.{Front};
ghost use Rattle.ml_cursor.specs.Fronts.{front};
ghost use Rattle.ml_cursor.specs.Places.{first_span, Takes};
ghost use Rattle.ml_cursor.specs.Says.{Says};
ghost use Rattle.ml_parse_types.specs.declared.looks.Row.{Row};
ghost use Rattle.ml_parse_types.specs.Types.{ReadsType};
ghost use Rattle.ml_parse_types.specs.Readers.{IsNone};
ghost use Rattle.ml_parse_patterns.specs.Patterns.{ReadsParams};
ghost use Rattle.ml_grammar.specs.Looks.{binds_function};
ghost use Rattle.ml_grammar.specs.Trees.{name_pattern};
ghost use Rattle.ml_grammar.specs.Grammar.{ReadsPattern, TargetBy, HasType, Borrows};
ghost use Rattle.ml_grammar.specs.Readings.{IsRead, AreDeep, TargetsAreDeep, Results, NoResults, NoBorrows};

use crate::begins::binds_function;
use crate::forms::Borrowed;
use crate::found::expect;
use crate::parts::Target;
use crate::source::Source;
use ml_cursor::{Front, ParseErr, accept, pass, refusal_at, span_at};
use ml_lexer::Token;
use ml_parse_patterns::{Found as FoundPat, FoundParams, read_params, read_pattern};
use ml_parse_types::{Row, read_type};
use ml_tree::{Pat, PatKind, TyExpr, Words};
use oxml_base::{Items, Span};
use std::alloc::Global;

/// A pattern.
pub fn read_whole_pattern(
    alloc: Global,
    source: &Source,
    at: &mut usize,
    left: u32,
) -> Result<FoundPat, ParseErr>
    requires texts { All (IsSound source.now.text.now) source.now.tokens.now }
    ensures ok { IfOk result (λ pat. IsRead (ReadsPattern source.now.text.now (drop at.old source.now.tokens.now)) left pat.pat pat.depth (drop at.new source.now.tokens.now)) }
    ensures err { IfErr result (Says source.now.tokens.now (AreDeep (ReadsPattern source.now.text.now (drop at.old source.now.tokens.now)) left)) }
{
    read_pattern(alloc, source.text, source.tokens, at, left)
}

/// `param+`
pub fn read_all_params(
    alloc: Global,
    source: &Source,
    at: &mut usize,
    left: u32,
) -> Result<FoundParams, ParseErr>
    requires texts { All (IsSound source.now.text.now) source.now.tokens.now }
    ensures ok { IfOk result (λ params. IsRead (ReadsParams source.now.text.now (drop at.old source.now.tokens.now)) left params.list params.depth (drop at.new source.now.tokens.now)) }
    ensures err { IfErr result (Says source.now.tokens.now (AreDeep (ReadsParams source.now.text.now (drop at.old source.now.tokens.now)) left)) }
{
    read_params(alloc, source.text, source.tokens, at, left)
}

/// A name as a pattern without words.
fn name_pattern(span: Span) -> FoundPat
    ensures tree { result.pat ≡ name_pattern span }
    ensures depth { result.depth ≡ 1 }
{
    let words = Words {
        loc: None,
        uni: None,
        aff: None,
    };
    FoundPat {
        pat: Pat {
            id: 0,
            span,
            kind: PatKind::Name(words, span),
        },
        depth: 1,
    }
}

/// `name param+`
#[tactic(auto, using(ml_grammar::proofs::Items::function_target_read, ml_grammar::proofs::Items::function_target_no_room, ml_grammar::proofs::Items::function_target_deep))]
fn read_function_target(
    alloc: Global,
    source: &Source,
    at: &mut usize,
    left: u32,
) -> Result<Target, ParseErr>
    requires texts { All (IsSound source.now.text.now) source.now.tokens.now }
    requires function { binds_function (drop at.old source.now.tokens.now) ≡ true }
    ensures reads { IfOk result (λ target. TargetBy source.now.text.now (binds_function (drop at.old source.now.tokens.now)) (drop at.old source.now.tokens.now) target.pat.pat target.pat.depth target.params.list target.params.depth (drop at.new source.now.tokens.now)) }
    ensures pattern { IfOk result (λ target. target.pat.depth ≤ left) }
    ensures params { IfOk result (λ target. target.params.depth ≤ left) }
    ensures err { IfErr result (Says source.now.tokens.now (TargetsAreDeep source.now.text.now (drop at.old source.now.tokens.now) left)) }
{
    if left == 0 {
        return Err(ParseErr::Refused(refusal_at(source.tokens, *at)));
    }
    let pat = name_pattern(span_at(source.tokens, *at));
    pass(source.tokens, at);
    let params = read_all_params(alloc, source, at, left)?;
    Ok(Target { pat, params })
}

/// `name param+`, or a pattern.
#[tactic(auto, using(ml_grammar::proofs::Items::pattern_target_read, ml_grammar::proofs::Items::pattern_target_deep))]
pub fn read_target(
    alloc: Global,
    source: &Source,
    at: &mut usize,
    left: u32,
) -> Result<Target, ParseErr>
    requires texts { All (IsSound source.now.text.now) source.now.tokens.now }
    ensures reads { IfOk result (λ target. TargetBy source.now.text.now (binds_function (drop at.old source.now.tokens.now)) (drop at.old source.now.tokens.now) target.pat.pat target.pat.depth target.params.list target.params.depth (drop at.new source.now.tokens.now)) }
    ensures pattern { IfOk result (λ target. target.pat.depth ≤ left) }
    ensures params { IfOk result (λ target. target.params.depth ≤ left) }
    ensures err { IfErr result (Says source.now.tokens.now (TargetsAreDeep source.now.text.now (drop at.old source.now.tokens.now) left)) }
{
    if binds_function(source.tokens, *at) {
        return Ok(read_function_target(alloc, source, at, left)?);
    }
    let pat = read_whole_pattern(alloc, source, at, left)?;
    let params = FoundParams {
        list: Items::new(alloc),
        depth: 0,
    };
    Ok(Target { pat, params })
}

/// A type.
pub fn read_whole_type(alloc: Global, tokens: &[Token], at: &mut usize) -> Result<TyExpr, ParseErr>
    ensures ok { IfOk result (λ ty. HasType (drop at.old tokens.now) ty (drop at.new tokens.now)) }
    ensures err { IfErr result (Says tokens.now (IsNone (ReadsType Row.Factors) (drop at.old tokens.now))) }
{
    read_type(alloc, tokens, at, Row::Factors)
}

/// `[: type] =`
#[tactic(auto, using(ml_grammar::proofs::Handed::takes, ml_grammar::proofs::Items::result_none, ml_grammar::proofs::Items::result_read, ml_grammar::proofs::Handed::results_no_equal, ml_grammar::proofs::Handed::results_no_type, ml_grammar::proofs::Handed::results_not_equal, ml_grammar::proofs::Accepts::colon_flag))]
pub fn read_result(
    alloc: Global,
    tokens: &[Token],
    at: &mut usize,
) -> Result<Option<TyExpr>, ParseErr>
    ensures ok { IfOk result (λ ty. Results (drop at.old tokens.now) ty (drop at.new tokens.now)) }
    ensures err { IfErr result (Says tokens.now (NoResults (drop at.old tokens.now))) }
{
    if !accept(tokens, at, Front::Colon) {
        expect(tokens, at, Front::Equal)?;
        return Ok(None);
    }
    let ty = read_whole_type(alloc, tokens, at)?;
    expect(tokens, at, Front::Equal)?;
    Ok(Some(ty))
}

/// `borrow_ name = name`
#[tactic(auto, using(ml_grammar::proofs::Handed::takes, ml_grammar::proofs::Handed::no_borrow_word, ml_grammar::proofs::Handed::no_borrow_name, ml_grammar::proofs::Handed::no_borrow_equal, ml_grammar::proofs::Handed::no_borrow_of))]
pub fn read_borrowed(tokens: &[Token], at: &mut usize) -> Result<Borrowed, ParseErr>
    ensures ok { IfOk result (λ names. Borrows (drop at.old tokens.now) names.name names.of (drop at.new tokens.now)) }
    ensures err { IfErr result (Says tokens.now (NoBorrows (drop at.old tokens.now))) }
{
    expect(tokens, at, Front::Borrow)?;
    let name = expect(tokens, at, Front::Lower)?;
    expect(tokens, at, Front::Equal)?;
    let of = expect(tokens, at, Front::Lower)?;
    Ok(Borrowed { name, of })
}

/// `name with`
#[tactic(auto, using(ml_grammar::proofs::Handed::takes))]
pub fn read_overwritten(tokens: &[Token], at: &mut usize) -> Result<Span, ParseErr>
    ensures name { IfOk result (λ name. Takes Front.Lower (drop at.old tokens.now) (drop 1 (drop at.old tokens.now)) name) }
    ensures passed { IfOk result (λ name. Takes Front.With (drop 1 (drop at.old tokens.now)) (drop at.new tokens.now) (first_span (drop 1 (drop at.old tokens.now)))) }
    ensures err { IfErr result (Says tokens.now (front (drop at.old tokens.now) ≡ Front.Lower → front (drop 1 (drop at.old tokens.now)) ≡ Front.With → ⊥)) }
{
    let name = expect(tokens, at, Front::Lower)?;
    expect(tokens, at, Front::With)?;
    Ok(name)
}
