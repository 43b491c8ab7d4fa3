ghost use Rattle.std.specs.Prelude.{◌≡◌, map, IfOk};
ghost use Rattle.ml_numbers.specs.Steps.{each};
ghost use Rattle.ml_numbers.specs.Numbered.{numbered_pattern, numbered_pattern_kind, numbered_field_pattern, numbered_param, numbered_params};

use crate::next::{Next, node_number};
use crate::types::number_type;
use ml_tree::{FieldPat, Param, Pat, PatKind};
use oxml_base::{Items, Lit, NoMemory};
use sqlite_items::Boxed;
use std::alloc::Global;

/// A text literal once more.
pub fn copied(alloc: Global, text: &Lit) -> Result<Lit, NoMemory>
    ensures { IfOk result (λ out. out ≡ text.now) }
{
    Ok(Lit {
        bytes: Items::from_slice(alloc, text.bytes.as_slice())?,
    })
}

/// A pattern with numbers: its own, then those of its parts.
#[cycle(patterns)]
pub fn number_pattern(alloc: Global, pat: &Pat, next: &mut Next) -> Result<Pat, NoMemory>
    ensures { IfOk result (λ out. numbered_pattern pat.now next.old ≡ (out, next.new)) }
{
    let id = node_number(next)?;
    let kind = number_kind(alloc, &pat.kind, next)?;
    Ok(Pat {
        id,
        span: pat.span,
        kind,
    })
}

#[cycle(patterns)]
fn number_kind(alloc: Global, kind: &PatKind, next: &mut Next) -> Result<PatKind, NoMemory>
    ensures { IfOk result (λ out. numbered_pattern_kind kind.now next.old ≡ (out, next.new)) }
{
    match kind {
        PatKind::Any => Ok(PatKind::Any),
        PatKind::Name(words, span) => Ok(PatKind::Name(*words, *span)),
        PatKind::Int(value) => Ok(PatKind::Int(*value)),
        PatKind::Char(value) => Ok(PatKind::Char(*value)),
        PatKind::Text(text) => Ok(PatKind::Text(copied(alloc, text)?)),
        PatKind::Con { name, arg: None } => Ok(PatKind::Con {
            name: *name,
            arg: None,
        }),
        PatKind::Con {
            name,
            arg: Some(inner),
        } => {
            let inner = number_boxed(alloc, inner, next)?;
            Ok(PatKind::Con {
                name: *name,
                arg: Some(inner),
            })
        }
        PatKind::Cons(one, other) => {
            let one = number_boxed(alloc, one, next)?;
            let other = number_boxed(alloc, other, next)?;
            Ok(PatKind::Cons(one, other))
        }
        PatKind::Tuple(parts) => Ok(PatKind::Tuple(number_patterns(
            alloc,
            parts.as_slice(),
            next,
        )?)),
        PatKind::List(parts) => Ok(PatKind::List(number_patterns(alloc, parts.as_slice(), next)?)),
        PatKind::Fields { list, rest } => {
            let list = number_fields(alloc, list.as_slice(), next)?;
            Ok(PatKind::Fields { list, rest: *rest })
        }
        PatKind::Or(one, other) => {
            let one = number_boxed(alloc, one, next)?;
            let other = number_boxed(alloc, other, next)?;
            Ok(PatKind::Or(one, other))
        }
        PatKind::Named(inner, name) => {
            let inner = number_boxed(alloc, inner, next)?;
            Ok(PatKind::Named(inner, *name))
        }
        PatKind::Typed(inner, ty) => {
            let inner = number_boxed(alloc, inner, next)?;
            let ty = number_type(alloc, ty, next)?;
            Ok(PatKind::Typed(inner, ty))
        }
        PatKind::Paren(inner) => Ok(PatKind::Paren(number_boxed(alloc, inner, next)?)),
    }
}

#[cycle(patterns)]
fn number_boxed(alloc: Global, pat: &Boxed<Pat>, next: &mut Next) -> Result<Boxed<Pat>, NoMemory>
    ensures { IfOk result (λ out. numbered_pattern pat.now next.old ≡ (out, next.new)) }
{
    Ok(Boxed::new(alloc, number_pattern(alloc, pat.get(), next)?)?)
}

#[cycle(patterns)]
fn number_field(alloc: Global, field: &FieldPat, next: &mut Next) -> Result<FieldPat, NoMemory>
    ensures { IfOk result (λ out. numbered_field_pattern field.now next.old ≡ (out, next.new)) }
{
    let id = node_number(next)?;
    let pat = number_pattern(alloc, &field.pat, next)?;
    Ok(FieldPat {
        id,
        name: field.name,
        pat,
    })
}

#[cycle(patterns)]
fn number_patterns(alloc: Global, list: &[Pat], next: &mut Next) -> Result<Items<Pat>, NoMemory>
    ensures { IfOk result (λ out. each (map numbered_pattern list.now) next.old ≡ (out, next.new)) }
{
    let mut done = Items::new(alloc);
    for one in list {
        done.push(number_pattern(alloc, one, next)?)?;
    }
    Ok(done)
}

#[cycle(patterns)]
fn number_fields(
    alloc: Global,
    list: &[FieldPat],
    next: &mut Next,
) -> Result<Items<FieldPat>, NoMemory>
    ensures { IfOk result (λ out. each (map numbered_field_pattern list.now) next.old ≡ (out, next.new)) }
{
    let mut done = Items::new(alloc);
    for one in list {
        done.push(number_field(alloc, one, next)?)?;
    }
    Ok(done)
}

fn number_param(alloc: Global, param: &Param, next: &mut Next) -> Result<Param, NoMemory>
    ensures { IfOk result (λ out. numbered_param param.now next.old ≡ (out, next.new)) }
{
    let pat = number_pattern(alloc, &param.pat, next)?;
    Ok(Param {
        words: param.words,
        pat,
    })
}

/// Parameters with the numbers of their patterns, in the order of the source.
pub fn number_params(
    alloc: Global,
    list: &[Param],
    next: &mut Next,
) -> Result<Items<Param>, NoMemory>
    ensures { IfOk result (λ out. numbered_params list.now next.old ≡ (out, next.new)) }
{
    let mut done = Items::new(alloc);
    for one in list {
        done.push(number_param(alloc, one, next)?)?;
    }
    Ok(done)
}
