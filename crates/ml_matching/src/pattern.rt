//! When a value fits a pattern.
ghost use Rattle.std.specs.Prelude.{◌≡◌, [], Some, IfOk, map};
ghost use Rattle.std.specs.Option.{option_map};
ghost use Rattle.ml_words.specs.Named.{targets};
ghost use Rattle.ml_values.specs.Shown.{value, values_list, names};
ghost use Rattle.ml_meaning.specs.Patterns as p;
ghost use Rattle.ml_matching.specs.Fitting.{Finds, onto, onto_found, param_fits, bind_fits, pattern_meaning, kind_meaning, field_meaning, field_fits};

use crate::parts::{block, cell, is_character, is_constant, is_number, is_text, only};
use ml_tree::{Bind, FieldPat, Param, Pat, PatKind};
use ml_values::{Env, Tools, Word, Words, bind, word_at};
use ml_words::{constructor_place, field_place};
use oxml_base::NoMemory;

/// These names where the test holds.
fn fits_if<'a>(test: bool, env: Env<'a>) -> Option<Env<'a>>
    ensures { option_map names result ≡ onto (names env.entry) (p.fits_if test) }
{
    if test { Some(env) } else { None }
}

/// The names that were found with one more.
fn with_name<'a>(
    tools: Tools<'a>,
    node: u32,
    word: Word<'a>,
    found: Option<Env<'a>>,
) -> Result<Option<Env<'a>>, NoMemory>
    ensures { IfOk result (λ env_found. option_map names env_found ≡ p.binding node (value word.entry) (option_map names found.entry)) }
{
    match found {
        Some(env) => Ok(Some(bind(tools.bump, node, word, env)?)),
        None => Ok(None),
    }
}

/// The names with those of a pattern, where the value fits it.
#[cycle(fitting)]
pub fn fits<'a>(
    tools: Tools<'a>,
    pat: &Pat,
    word: Word<'a>,
    env: Env<'a>,
) -> Result<Option<Env<'a>>, NoMemory>
    ensures { Finds result (p.fits (targets tools.entry.scoped.now) pat.now (value word.entry)) (names env.entry) }
{
    fits_kind(tools, &pat.kind, pat.id, word, env)
}

#[cycle(fitting)]
fn fits_kind<'a>(
    tools: Tools<'a>,
    kind: &PatKind,
    node: u32,
    word: Word<'a>,
    env: Env<'a>,
) -> Result<Option<Env<'a>>, NoMemory>
    ensures { Finds result ((kind_meaning (targets tools.entry.scoped.now) kind.now node).whole (value word.entry)) (names env.entry) }
{
    match kind {
        PatKind::Any => Ok(Some(env)),
        PatKind::Name(_, _) => with_name(tools, node, word, Some(env)),
        PatKind::Int(z) => Ok(fits_if(is_number(word, *z), env)),
        PatKind::Char(byte) => Ok(fits_if(is_character(word, *byte), env)),
        PatKind::Text(lit) => Ok(fits_if(is_text(word, lit.bytes.as_slice()), env)),
        PatKind::Con { name, arg } => {
            let place = constructor_place(tools.scoped, *name, node);
            match arg {
                None => Ok(fits_if(is_constant(word, place), env)),
                Some(inner) => fit_argument(tools, inner.get(), place, word, env),
            }
        }
        PatKind::Cons(head, tail) => match cell(word) {
            Some((first, rest)) => {
                let found = fits(tools, head.get(), first, env)?;
                fit_next(tools, tail.get(), rest, found)
            }
            None => Ok(None),
        },
        PatKind::Tuple(parts) => fit_tuple(tools, parts.as_slice(), word, env),
        PatKind::List(parts) => fit_list(tools, parts.as_slice(), word, env),
        PatKind::Fields { list, rest: _ } => fit_record(tools, list.as_slice(), word, env),
        PatKind::Or(one, other) => {
            let found = fits(tools, one.get(), word, env)?;
            fit_other(tools, other.get(), found, word, env)
        }
        PatKind::Named(inner, _) => {
            let found = fits(tools, inner.get(), word, env)?;
            with_name(tools, node, word, found)
        }
        PatKind::Typed(inner, _) | PatKind::Paren(inner) => fits(tools, inner.get(), word, env),
    }
}

/// A pattern against a value, where those before it fitted theirs.
#[cycle(fitting)]
fn fit_next<'a>(
    tools: Tools<'a>,
    pat: &Pat,
    word: Word<'a>,
    found: Option<Env<'a>>,
) -> Result<Option<Env<'a>>, NoMemory>
    ensures { IfOk result (λ env_found. option_map names env_found ≡ onto_found (option_map names found.entry) (p.fits (targets tools.entry.scoped.now) pat.now (value word.entry))) }
{
    match found {
        Some(env) => fits(tools, pat, word, env),
        None => Ok(None),
    }
}

/// What was found, or else what this pattern finds.
#[cycle(fitting)]
fn fit_other<'a>(
    tools: Tools<'a>,
    pat: &Pat,
    found: Option<Env<'a>>,
    word: Word<'a>,
    env: Env<'a>,
) -> Result<Option<Env<'a>>, NoMemory>
    ensures { IfOk result (λ env_found. option_map names env_found ≡ p.or_else (option_map names found.entry) (onto (names env.entry) (p.fits (targets tools.entry.scoped.now) pat.now (value word.entry)))) }
{
    match found {
        Some(found) => Ok(Some(found)),
        None => fits(tools, pat, word, env),
    }
}

/// The argument of a constructor against the fields of a block of its place.
#[cycle(fitting)]
fn fit_argument<'a>(
    tools: Tools<'a>,
    pat: &Pat,
    place: Option<u32>,
    word: Word<'a>,
    env: Env<'a>,
) -> Result<Option<Env<'a>>, NoMemory>
    ensures { Finds result (p.block_fits place (pattern_meaning (targets tools.entry.scoped.now) pat.now).fields (value word.entry)) (names env.entry) }
{
    match block(word, place) {
        Some(words) => fit_fields(tools, pat, words, env),
        None => Ok(None),
    }
}

/// The argument of a constructor against its fields: a tuple takes them one by one, `_` takes any,
/// and each other pattern takes the one field.
#[cycle(fitting)]
fn fit_fields<'a>(
    tools: Tools<'a>,
    pat: &Pat,
    words: Words<'a>,
    env: Env<'a>,
) -> Result<Option<Env<'a>>, NoMemory>
    ensures { Finds result ((pattern_meaning (targets tools.entry.scoped.now) pat.now).fields (values_list words.entry)) (names env.entry) }
{
    match &pat.kind {
        PatKind::Any => Ok(Some(env)),
        PatKind::Tuple(parts) => fit_parts(tools, parts.as_slice(), words, env),
        PatKind::Paren(inner) => fit_fields(tools, inner.get(), words, env),
        _ => match only(words) {
            Some(word) => fits_kind(tools, &pat.kind, pat.id, word, env),
            None => Ok(None),
        },
    }
}

/// The parts of a tuple that is the argument of a constructor against its fields. A tuple of one
/// value for the one field is a field like any other.
#[cycle(fitting)]
fn fit_parts<'a>(
    tools: Tools<'a>,
    pats: &[Pat],
    words: Words<'a>,
    env: Env<'a>,
) -> Result<Option<Env<'a>>, NoMemory>
    ensures { Finds result (p.tuple_fields (targets tools.entry.scoped.now) (map (p.fits (targets tools.entry.scoped.now)) pats.now) (values_list words.entry)) (names env.entry) }
{
    match only(words) {
        Some(word) => fit_tuple(tools, pats, word, env),
        None => fit_all(tools, pats, words, env),
    }
}

/// The parts of a tuple against those of a value.
#[cycle(fitting)]
fn fit_tuple<'a>(
    tools: Tools<'a>,
    pats: &[Pat],
    word: Word<'a>,
    env: Env<'a>,
) -> Result<Option<Env<'a>>, NoMemory>
    ensures { Finds result (p.block_fits (Some 0) (p.all_fit (map (p.fits (targets tools.entry.scoped.now)) pats.now)) (value word.entry)) (names env.entry) }
{
    match block(word, Some(0)) {
        Some(words) => fit_all(tools, pats, words, env),
        None => Ok(None),
    }
}

/// Each pattern against its value, as many as there are.
#[cycle(fitting)]
fn fit_all<'a>(
    tools: Tools<'a>,
    pats: &[Pat],
    words: Words<'a>,
    env: Env<'a>,
) -> Result<Option<Env<'a>>, NoMemory>
    ensures { Finds result (p.all_fit (map (p.fits (targets tools.entry.scoped.now)) pats.now) (values_list words.entry)) (names env.entry) }
{
    let mut rest = words;
    let mut found = env;
    for pat in pats {
        let Words::And(pair) = rest else {
            return Ok(None);
        };
        match fits(tools, pat, pair.first, found)? {
            Some(more) => found = more,
            None => return Ok(None),
        }
        rest = pair.rest;
    }
    Ok(at_end(rest, found))
}

/// The names, where no value is left.
fn at_end<'a>(rest: Words<'a>, env: Env<'a>) -> Option<Env<'a>>
    ensures { option_map names result ≡ onto (names env.entry) (p.all_fit [] (values_list rest.entry)) }
{
    match rest {
        Words::Empty => Some(env),
        Words::And(_) => None,
    }
}

/// The patterns against the elements of a list, as many as there are.
#[cycle(fitting)]
fn fit_list<'a>(
    tools: Tools<'a>,
    pats: &[Pat],
    word: Word<'a>,
    env: Env<'a>,
) -> Result<Option<Env<'a>>, NoMemory>
    ensures { Finds result (p.list_fits (map (p.fits (targets tools.entry.scoped.now)) pats.now) (value word.entry)) (names env.entry) }
{
    let mut rest = word;
    let mut found = env;
    for pat in pats {
        let Some((head, tail)) = cell(rest) else {
            return Ok(None);
        };
        match fits(tools, pat, head, found)? {
            Some(more) => found = more,
            None => return Ok(None),
        }
        rest = tail;
    }
    Ok(fits_if(is_constant(rest, Some(0)), found))
}

/// A record pattern against a record.
#[cycle(fitting)]
fn fit_record<'a>(
    tools: Tools<'a>,
    list: &[FieldPat],
    word: Word<'a>,
    env: Env<'a>,
) -> Result<Option<Env<'a>>, NoMemory>
    ensures { Finds result (p.block_fits (Some 0) (p.record_fits (targets tools.entry.scoped.now) (map (field_meaning (targets tools.entry.scoped.now)) list.now)) (value word.entry)) (names env.entry) }
{
    match block(word, Some(0)) {
        Some(words) => fit_named(tools, list, words, env),
        None => Ok(None),
    }
}

/// The fields of a record pattern, each against the part of the record that it names.
#[cycle(fitting)]
fn fit_named<'a>(
    tools: Tools<'a>,
    list: &[FieldPat],
    words: Words<'a>,
    env: Env<'a>,
) -> Result<Option<Env<'a>>, NoMemory>
    ensures { Finds result (p.record_fits (targets tools.entry.scoped.now) (map (field_meaning (targets tools.entry.scoped.now)) list.now) (values_list words.entry)) (names env.entry) }
{
    let mut found = env;
    for field in list {
        match fit_field(tools, field, words, found)? {
            Some(more) => found = more,
            None => return Ok(None),
        }
    }
    Ok(Some(found))
}

#[cycle(fitting)]
fn fit_field<'a>(
    tools: Tools<'a>,
    field: &FieldPat,
    words: Words<'a>,
    env: Env<'a>,
) -> Result<Option<Env<'a>>, NoMemory>
    ensures { Finds result (field_fits (targets tools.entry.scoped.now) field.now (values_list words.entry)) (names env.entry) }
{
    match part_at(words, field_place(tools.scoped, field.id)) {
        Some(word) => fits(tools, &field.pat, word, env),
        None => Ok(None),
    }
}

/// The part of a record at a place.
fn part_at<'a>(words: Words<'a>, place: Option<u32>) -> Option<Word<'a>>
    ensures { option_map value result ≡ p.found (values_list words.entry) place }
{
    match place {
        Some(place) => word_at(words, place),
        None => None,
    }
}

/// Parameters against arguments, as many as there are.
pub fn fit_params<'a>(
    tools: Tools<'a>,
    params: &[Param],
    words: Words<'a>,
    env: Env<'a>,
) -> Result<Option<Env<'a>>, NoMemory>
    ensures { Finds result (p.all_fit (param_fits (targets tools.entry.scoped.now) params.now) (values_list words.entry)) (names env.entry) }
{
    let mut rest = words;
    let mut found = env;
    for param in params {
        let Words::And(pair) = rest else {
            return Ok(None);
        };
        match fits(tools, &param.pat, pair.first, found)? {
            Some(more) => found = more,
            None => return Ok(None),
        }
        rest = pair.rest;
    }
    Ok(at_end(rest, found))
}

/// The patterns of bindings against their values, as many as there are.
pub fn fit_binds<'a>(
    tools: Tools<'a>,
    binds: &[Bind],
    words: Words<'a>,
    env: Env<'a>,
) -> Result<Option<Env<'a>>, NoMemory>
    ensures { Finds result (p.all_fit (bind_fits (targets tools.entry.scoped.now) binds.now) (values_list words.entry)) (names env.entry) }
{
    let mut rest = words;
    let mut found = env;
    for one in binds {
        let Words::And(pair) = rest else {
            return Ok(None);
        };
        match fits(tools, &one.pat, pair.first, found)? {
            Some(more) => found = more,
            None => return Ok(None),
        }
        rest = pair.rest;
    }
    Ok(at_end(rest, found))
}
