use crate::page::Page;
use ml_tree::{Arg, TyExpr, TyKind};
use std::alloc::AllocError;

#[cycle(print_types)]
pub fn ty(page: &mut Page, written: &TyExpr) -> Result<(), AllocError> {
    match &written.kind {
        TyKind::Var(span) => page.name(*span),
        TyKind::Con { name, args } => {
            page.put("(")?;
            page.name(*name)?;
            types(page, args.as_slice())
        }
        TyKind::Tuple(parts) => {
            page.put("(*")?;
            types(page, parts.as_slice())
        }
        TyKind::Arrow { from, to } => {
            page.put("(->")?;
            arg(page, from.get())?;
            arg(page, to.get())?;
            page.put(")")
        }
    }
}

/// The types, each behind a blank, and the closing bracket.
#[cycle(print_types)]
fn types(page: &mut Page, list: &[TyExpr]) -> Result<(), AllocError> {
    for one in list {
        page.put(" ")?;
        ty(page, one)?;
    }
    page.put(")")
}

/// A type with its words, behind a blank.
#[cycle(print_types)]
pub fn arg(page: &mut Page, written: &Arg) -> Result<(), AllocError> {
    page.put(" ")?;
    page.words(written.words)?;
    ty(page, &written.ty)
}
