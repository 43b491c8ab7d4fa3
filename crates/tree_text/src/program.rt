use crate::expressions::binds;
use crate::page::Page;
use crate::types::{arg, ty};
use ml_tree::{ConDecl, Decl, DeclBody, FieldDecl, Item, ItemKind, Program};
use oxml_base::Span;
use std::alloc::{AllocError, Global};

fn constructor(page: &mut Page, con: &ConDecl) -> Result<(), AllocError> {
    page.put(" | ")?;
    page.name(con.name)?;
    for one in con.args.as_slice() {
        arg(page, one)?;
    }
    Ok(())
}

fn constructors(page: &mut Page, list: &[ConDecl]) -> Result<(), AllocError> {
    for con in list {
        constructor(page, con)?;
    }
    Ok(())
}

fn fields(page: &mut Page, list: &[FieldDecl]) -> Result<(), AllocError> {
    for field in list {
        page.put(" {")?;
        page.name(field.name)?;
        arg(page, &field.arg)?;
        page.put("}")?;
    }
    Ok(())
}

fn variables(page: &mut Page, list: &[Span]) -> Result<(), AllocError> {
    for variable in list {
        page.put(" ")?;
        page.name(*variable)?;
    }
    Ok(())
}

fn body(page: &mut Page, found: &DeclBody) -> Result<(), AllocError> {
    match found {
        DeclBody::Variant(list) => constructors(page, list.as_slice()),
        DeclBody::Fields(list) => fields(page, list.as_slice()),
        DeclBody::Alias(written) => {
            page.put(" ")?;
            ty(page, written)
        }
    }
}

fn declaration(page: &mut Page, decl: &Decl) -> Result<(), AllocError> {
    page.put(" [")?;
    page.name(decl.name)?;
    variables(page, decl.vars.as_slice())?;
    page.put(" =")?;
    body(page, &decl.body)?;
    page.put("]")
}

fn declarations(page: &mut Page, list: &[Decl]) -> Result<(), AllocError> {
    page.put("(type")?;
    for decl in list {
        declaration(page, decl)?;
    }
    Ok(())
}

fn item(page: &mut Page, found: &Item) -> Result<(), AllocError> {
    match &found.kind {
        ItemKind::Types(list) => declarations(page, list.as_slice())?,
        ItemKind::Let {
            recursive,
            binds: list,
        } => binds(page, *recursive, list.as_slice())?,
    }
    page.put(")")?;
    page.extent(found.span)
}

/// The items, with blanks between them.
fn items(page: &mut Page, list: &[Item]) -> Result<(), AllocError> {
    for (n, found) in list.iter().enumerate() {
        if n > 0 {
            page.put(" ")?;
        }
        item(page, found)?;
    }
    Ok(())
}

/// The tree of a program over this text, with the spans of its expressions, patterns and items or
/// without them.
pub fn print(
    alloc: Global,
    text: &[u8],
    program: &Program,
    spans: bool,
) -> Result<String, AllocError> {
    let mut page = Page::new(alloc, text, spans);
    items(&mut page, program.items.as_slice())?;
    Ok(page.out)
}
