use crate::page::Page;
use crate::types::ty;
use ml_tree::{FieldPat, Param, Pat, PatKind};
use std::alloc::AllocError;

#[cycle(print_patterns)]
pub fn pattern(page: &mut Page, pat: &Pat) -> Result<(), AllocError> {
    kind(page, &pat.kind)?;
    page.extent(pat.span)
}

/// What stands before a pattern, and the pattern.
#[cycle(print_patterns)]
fn part(page: &mut Page, before: &str, pat: &Pat) -> Result<(), AllocError> {
    page.put(before)?;
    pattern(page, pat)
}

#[cycle(print_patterns)]
fn kind(page: &mut Page, found: &PatKind) -> Result<(), AllocError> {
    match found {
        PatKind::Any => page.put("_"),
        PatKind::Name(words, span) => {
            page.words(*words)?;
            page.name(*span)
        }
        PatKind::Int(value) => page.int(*value),
        PatKind::Char(byte) => page.character(*byte),
        PatKind::Text(literal) => page.literal(literal.bytes.as_slice()),
        PatKind::Con { name, arg: None } => page.constructor(*name),
        PatKind::Con {
            name,
            arg: Some(inner),
        } => {
            page.put("(")?;
            page.constructor(*name)?;
            part(page, " ", inner.get())?;
            page.put(")")
        }
        PatKind::Cons(one, other) => {
            part(page, "(:: ", one.get())?;
            part(page, " ", other.get())?;
            page.put(")")
        }
        PatKind::Or(one, other) => {
            part(page, "(| ", one.get())?;
            part(page, " ", other.get())?;
            page.put(")")
        }
        PatKind::Tuple(parts) => {
            patterns(page, "(,", parts.as_slice())?;
            page.put(")")
        }
        PatKind::List(parts) => {
            patterns(page, "[", parts.as_slice())?;
            page.put("]")
        }
        PatKind::Fields { list, rest } => {
            fields(page, list.as_slice())?;
            page.put(if *rest { " _}" } else { "}" })
        }
        PatKind::Named(inner, name) => {
            part(page, "(as ", inner.get())?;
            page.put(" ")?;
            page.name(*name)?;
            page.put(")")
        }
        PatKind::Typed(inner, written) => {
            part(page, "(: ", inner.get())?;
            page.put(" ")?;
            ty(page, written)?;
            page.put(")")
        }
        PatKind::Paren(inner) => {
            part(page, "<", inner.get())?;
            page.put(">")
        }
    }
}

/// A mark, and the patterns, each behind a blank.
#[cycle(print_patterns)]
fn patterns(page: &mut Page, mark: &str, list: &[Pat]) -> Result<(), AllocError> {
    page.put(mark)?;
    for one in list {
        part(page, " ", one)?;
    }
    Ok(())
}

#[cycle(print_patterns)]
fn fields(page: &mut Page, list: &[FieldPat]) -> Result<(), AllocError> {
    page.put("{")?;
    for one in list {
        page.put(" ")?;
        page.name(one.name)?;
        part(page, "=", &one.pat)?;
    }
    Ok(())
}

/// The parameters with their words, each behind a blank.
pub fn params(page: &mut Page, list: &[Param]) -> Result<(), AllocError> {
    for one in list {
        page.put(" ")?;
        page.words(one.words)?;
        pattern(page, &one.pat)?;
    }
    Ok(())
}
