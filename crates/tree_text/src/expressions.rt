use crate::page::Page;
use crate::patterns::{params, pattern};
use crate::types::ty;
use ml_tree::{Arm, Bind, Expr, ExprKind, FieldExpr};
use std::alloc::AllocError;
use std::fmt::Write;

#[cycle(print_expressions)]
fn expression(page: &mut Page, found: &Expr) -> Result<(), AllocError> {
    kind(page, &found.kind)?;
    page.extent(found.span)
}

/// What stands before an expression, and the expression.
#[cycle(print_expressions)]
fn part(page: &mut Page, before: &str, found: &Expr) -> Result<(), AllocError> {
    page.put(before)?;
    expression(page, found)
}

/// What stands before an expression, the expression, and the closing bracket.
#[cycle(print_expressions)]
fn last(page: &mut Page, before: &str, found: &Expr) -> Result<(), AllocError> {
    part(page, before, found)?;
    page.put(")")
}

#[cycle(print_expressions)]
fn kind(page: &mut Page, found: &ExprKind) -> Result<(), AllocError> {
    match found {
        ExprKind::Int(value) => page.int(*value),
        ExprKind::Char(byte) => page.character(*byte),
        ExprKind::Text(literal) => page.literal(literal.bytes.as_slice()),
        ExprKind::Name(span) => page.name(*span),
        ExprKind::Path(module, name) => {
            page.name(*module)?;
            page.put(".")?;
            page.name(*name)
        }
        ExprKind::Con { name, arg: None } => page.constructor(*name),
        ExprKind::Con {
            name,
            arg: Some(inner),
        } => {
            page.put("(")?;
            page.constructor(*name)?;
            last(page, " ", inner.get())
        }
        ExprKind::Cons(one, other) => {
            part(page, "(:: ", one.get())?;
            last(page, " ", other.get())
        }
        ExprKind::Tuple(parts) => several(page, "(,", parts.as_slice(), ")"),
        ExprKind::List(parts) => several(page, "[", parts.as_slice(), "]"),
        ExprKind::Seq(parts) => several(page, "(;", parts.as_slice(), ")"),
        ExprKind::Fields(list) => fields(page, list.as_slice()),
        ExprKind::Field(inner, name) => {
            page.put("(.")?;
            page.name(*name)?;
            last(page, " ", inner.get())
        }
        ExprKind::Index(one, other) => {
            part(page, "(.[] ", one.get())?;
            last(page, " ", other.get())
        }
        ExprKind::Apply(function, args) => {
            part(page, "(@ ", function.get())?;
            several(page, "", args.as_slice(), ")")
        }
        ExprKind::Binary(operator, one, other) => {
            write!(page.out, "({operator:?}")?;
            part(page, " ", one.get())?;
            last(page, " ", other.get())
        }
        ExprKind::Minus(inner) => last(page, "(- ", inner.get()),
        ExprKind::If(condition, then, None) => {
            part(page, "(if ", condition.get())?;
            last(page, " ", then.get())
        }
        ExprKind::If(condition, then, Some(other)) => {
            part(page, "(if ", condition.get())?;
            part(page, " ", then.get())?;
            last(page, " ", other.get())
        }
        ExprKind::Let {
            recursive,
            binds: list,
            body,
        } => {
            binds(page, *recursive, list.as_slice())?;
            last(page, " ", body.get())
        }
        ExprKind::Match(inner, list) => {
            part(page, "(match ", inner.get())?;
            arms(page, list.as_slice())
        }
        ExprKind::Fun(list, body) => {
            page.put("(fun")?;
            params(page, list.as_slice())?;
            last(page, " -> ", body.get())
        }
        ExprKind::Function(list) => {
            page.put("(function")?;
            arms(page, list.as_slice())
        }
        ExprKind::Paren(inner) => {
            part(page, "<", inner.get())?;
            page.put(">")
        }
        ExprKind::Typed(inner, written) => {
            part(page, "(: ", inner.get())?;
            page.put(" ")?;
            ty(page, written)?;
            page.put(")")
        }
        ExprKind::Worded(words, inner) => {
            page.put("(")?;
            page.words(*words)?;
            last(page, "", inner.get())
        }
        ExprKind::Exclave(inner) => last(page, "(exclave_ ", inner.get()),
        ExprKind::Borrow { name, of, body } => {
            page.put("(borrow_ ")?;
            page.name(*name)?;
            page.put(" ")?;
            page.name(*of)?;
            last(page, " ", body.get())
        }
        ExprKind::Overwrite { name, with_con } => {
            page.put("(overwrite_ ")?;
            page.name(*name)?;
            last(page, " ", with_con.get())
        }
    }
}

#[cycle(print_expressions)]
fn several(page: &mut Page, mark: &str, list: &[Expr], end: &str) -> Result<(), AllocError> {
    page.put(mark)?;
    for one in list {
        part(page, " ", one)?;
    }
    page.put(end)
}

#[cycle(print_expressions)]
fn fields(page: &mut Page, list: &[FieldExpr]) -> Result<(), AllocError> {
    page.put("{")?;
    for field in list {
        page.put(" ")?;
        page.name(field.name)?;
        part(page, "=", &field.expr)?;
    }
    page.put("}")
}

/// The arms, and the closing bracket.
#[cycle(print_expressions)]
fn arms(page: &mut Page, list: &[Arm]) -> Result<(), AllocError> {
    for one in list {
        arm(page, one)?;
    }
    page.put(")")
}

#[cycle(print_expressions)]
fn arm(page: &mut Page, found: &Arm) -> Result<(), AllocError> {
    page.put(" | ")?;
    pattern(page, &found.pat)?;
    if let Some(guard) = &found.guard {
        part(page, " when ", guard)?;
    }
    part(page, " -> ", &found.body)
}

/// The beginning of a `let`, with what it binds.
#[cycle(print_expressions)]
pub fn binds(page: &mut Page, recursive: bool, list: &[Bind]) -> Result<(), AllocError> {
    page.put(if recursive { "(letrec" } else { "(let" })?;
    for one in list {
        bind(page, one)?;
    }
    Ok(())
}

#[cycle(print_expressions)]
fn bind(page: &mut Page, found: &Bind) -> Result<(), AllocError> {
    page.put(" [")?;
    pattern(page, &found.pat)?;
    params(page, found.params.as_slice())?;
    if let Some(result) = &found.result {
        page.put(" : ")?;
        ty(page, result)?;
    }
    part(page, " = ", &found.body)?;
    page.put("]")
}
