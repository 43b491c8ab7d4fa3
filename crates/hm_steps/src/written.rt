//! The terms of written types.
ghost use Rattle.std.specs.Prelude.{◌≡◌, Some, map, IfOk};
ghost use Rattle.ml_typing.specs.Written.{written, written_name};
ghost use Rattle.ml_typing.specs.Typing.{find, names_of};

use crate::terms::{nothing, single};
use ml_tree::{Scoped, TyExpr, TyKind, TyRef};
use ml_typing::{Term, Unknown};
use oxml_base::{Items, NoMemory};
use sqlite_items::Boxed;
use std::alloc::Global;

/// The term of a written type. A type variable stands for some type of its item.
#[cycle(types)]
pub fn written(alloc: Global, s: &Scoped, item: u32, ty: &TyExpr) -> Result<Term, NoMemory>
    ensures { IfOk result (λ t. t ≡ written (names_of s.now.refs s.now.types item) ty.now) }
{
    match &ty.kind {
        TyKind::Var(_) => Ok(named(alloc, s, item, ty.id, Items::new(alloc))),
        TyKind::Con { name: _, args } => {
            let terms = all_written(alloc, s, item, args.as_slice())?;
            Ok(named(alloc, s, item, ty.id, terms))
        }
        TyKind::Tuple(parts) => {
            let terms = all_written(alloc, s, item, parts.as_slice())?;
            Ok(Term::Tuple(terms))
        }
        TyKind::Arrow { from, to } => {
            let param = written(alloc, s, item, &from.get().ty)?;
            let params = single(alloc, param)?;
            let result = written(alloc, s, item, &to.get().ty)?;
            Ok(Term::Function(params, Boxed::new(alloc, result)?))
        }
    }
}

#[cycle(types)]
fn all_written(
    alloc: Global,
    s: &Scoped,
    item: u32,
    list: &[TyExpr],
) -> Result<Items<Term>, NoMemory>
    ensures { IfOk result (λ ts. ts ≡ map (written (names_of s.now.refs s.now.types item)) list.now) }
{
    let mut terms = Items::new(alloc);
    for ty in list {
        let term = written(alloc, s, item, ty)?;
        terms.push(term)?;
    }
    Ok(terms)
}

/// What a type expression names.
fn type_target(s: &Scoped, id: u32) -> Option<TyRef>
    ensures { result ≡ find s.now.types id }
{
    s.type_target(id)
}

/// What a type expression names, at arguments.
fn named(alloc: Global, s: &Scoped, item: u32, id: u32, args: Items<Term>) -> Term
    ensures { result ≡ written_name (names_of s.now.refs s.now.types item) args (find s.now.types id) }
{
    let Some(reference) = type_target(s, id) else {
        return nothing(alloc)
    };
    match reference {
        TyRef::Decl(number) => Term::Con(number, args),
        TyRef::Var(number) => Term::Of(Unknown::Fresh(item, number)),
    }
}
