ghost use Rattle.std.specs.Prelude.{◌≡◌, map, IfOk};
ghost use Rattle.ml_numbers.specs.Steps.{each};
ghost use Rattle.ml_numbers.specs.Numbered.{numbered_type, numbered_type_kind, numbered_arg, numbered_con, numbered_field_decl, numbered_body, numbered_decl};

use crate::next::{Next, type_number};
use ml_tree::{Arg, ConDecl, Decl, DeclBody, FieldDecl, TyExpr, TyKind};
use oxml_base::{Items, NoMemory};
use sqlite_items::Boxed;
use std::alloc::Global;

/// A type expression with numbers: its own, then those of its parts.
#[cycle(types)]
pub fn number_type(alloc: Global, ty: &TyExpr, next: &mut Next) -> Result<TyExpr, NoMemory>
    ensures { IfOk result (λ ty_out. numbered_type ty.now next.old ≡ (ty_out, next.new)) }
{
    let id = type_number(next)?;
    let kind = number_kind(alloc, &ty.kind, next)?;
    Ok(TyExpr {
        id,
        span: ty.span,
        kind,
    })
}

#[cycle(types)]
fn number_kind(alloc: Global, kind: &TyKind, next: &mut Next) -> Result<TyKind, NoMemory>
    ensures { IfOk result (λ out. numbered_type_kind kind.now next.old ≡ (out, next.new)) }
{
    match kind {
        TyKind::Var(span) => Ok(TyKind::Var(*span)),
        TyKind::Con { name, args } => {
            let args = number_types(alloc, args.as_slice(), next)?;
            Ok(TyKind::Con { name: *name, args })
        }
        TyKind::Tuple(parts) => Ok(TyKind::Tuple(number_types(alloc, parts.as_slice(), next)?)),
        TyKind::Arrow { from, to } => {
            let from = number_boxed(alloc, from, next)?;
            let to = number_boxed(alloc, to, next)?;
            Ok(TyKind::Arrow { from, to })
        }
    }
}

#[cycle(types)]
fn number_boxed(alloc: Global, arg: &Boxed<Arg>, next: &mut Next) -> Result<Boxed<Arg>, NoMemory>
    ensures { IfOk result (λ out. numbered_arg arg.now next.old ≡ (out, next.new)) }
{
    Ok(Boxed::new(alloc, number_arg(alloc, arg.get(), next)?)?)
}

#[cycle(types)]
fn number_arg(alloc: Global, arg: &Arg, next: &mut Next) -> Result<Arg, NoMemory>
    ensures { IfOk result (λ out. numbered_arg arg.now next.old ≡ (out, next.new)) }
{
    let ty = number_type(alloc, &arg.ty, next)?;
    Ok(Arg {
        words: arg.words,
        ty,
    })
}

#[cycle(types)]
fn number_types(alloc: Global, list: &[TyExpr], next: &mut Next) -> Result<Items<TyExpr>, NoMemory>
    ensures { IfOk result (λ out. each (map numbered_type list.now) next.old ≡ (out, next.new)) }
{
    let mut done = Items::new(alloc);
    for one in list {
        done.push(number_type(alloc, one, next)?)?;
    }
    Ok(done)
}

fn number_args(alloc: Global, list: &[Arg], next: &mut Next) -> Result<Items<Arg>, NoMemory>
    ensures { IfOk result (λ out. each (map numbered_arg list.now) next.old ≡ (out, next.new)) }
{
    let mut done = Items::new(alloc);
    for one in list {
        done.push(number_arg(alloc, one, next)?)?;
    }
    Ok(done)
}

fn number_con(alloc: Global, con: &ConDecl, next: &mut Next) -> Result<ConDecl, NoMemory>
    ensures { IfOk result (λ out. numbered_con con.now next.old ≡ (out, next.new)) }
{
    let args = number_args(alloc, con.args.as_slice(), next)?;
    Ok(ConDecl {
        name: con.name,
        args,
    })
}

fn number_cons(alloc: Global, list: &[ConDecl], next: &mut Next) -> Result<Items<ConDecl>, NoMemory>
    ensures { IfOk result (λ out. each (map numbered_con list.now) next.old ≡ (out, next.new)) }
{
    let mut done = Items::new(alloc);
    for one in list {
        done.push(number_con(alloc, one, next)?)?;
    }
    Ok(done)
}

fn number_field(alloc: Global, field: &FieldDecl, next: &mut Next) -> Result<FieldDecl, NoMemory>
    ensures { IfOk result (λ out. numbered_field_decl field.now next.old ≡ (out, next.new)) }
{
    let arg = number_arg(alloc, &field.arg, next)?;
    Ok(FieldDecl {
        name: field.name,
        arg,
    })
}

fn number_fields(
    alloc: Global,
    list: &[FieldDecl],
    next: &mut Next,
) -> Result<Items<FieldDecl>, NoMemory>
    ensures { IfOk result (λ out. each (map numbered_field_decl list.now) next.old ≡ (out, next.new)) }
{
    let mut done = Items::new(alloc);
    for one in list {
        done.push(number_field(alloc, one, next)?)?;
    }
    Ok(done)
}

fn number_body(alloc: Global, body: &DeclBody, next: &mut Next) -> Result<DeclBody, NoMemory>
    ensures { IfOk result (λ out. numbered_body body.now next.old ≡ (out, next.new)) }
{
    match body {
        DeclBody::Variant(cons) => Ok(DeclBody::Variant(number_cons(
            alloc,
            cons.as_slice(),
            next,
        )?)),
        DeclBody::Fields(fields) => Ok(DeclBody::Fields(number_fields(
            alloc,
            fields.as_slice(),
            next,
        )?)),
        DeclBody::Alias(ty) => Ok(DeclBody::Alias(number_type(alloc, ty, next)?)),
    }
}

fn number_decl(alloc: Global, decl: &Decl, next: &mut Next) -> Result<Decl, NoMemory>
    ensures { IfOk result (λ out. numbered_decl decl.now next.old ≡ (out, next.new)) }
{
    let vars = Items::from_slice(alloc, decl.vars.as_slice())?;
    let body = number_body(alloc, &decl.body, next)?;
    Ok(Decl {
        name: decl.name,
        vars,
        body,
    })
}

/// Declarations with the numbers of their type expressions, in the order of the source.
pub fn number_decls(alloc: Global, list: &[Decl], next: &mut Next) -> Result<Items<Decl>, NoMemory>
    ensures { IfOk result (λ out. each (map numbered_decl list.now) next.old ≡ (out, next.new)) }
{
    let mut done = Items::new(alloc);
    for one in list {
        done.push(number_decl(alloc, one, next)?)?;
    }
    Ok(done)
}
