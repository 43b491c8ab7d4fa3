//! The names in type expressions.
ghost use Rattle.std.specs.Prelude.{◌≡◌, map, OnOk};
ghost use Rattle.ml_scope.specs.Journal.{add, each};
ghost use Rattle.ml_scope.specs.Types.{type_named, type_look, type_kind_look, arg_look};

use crate::found::Found;
use crate::known::Known;
use ml_tree::{Arg, TyExpr, TyKind};
use oxml_base::{Items, NoMemory, Refusal, Rule, Span};

/// A name of a type points to its declaration.
fn type_name(known: &Known, id: u32, name: Span, journal: &mut Items<Found>) -> Result<(), NoMemory>
    ensures { OnOk result (journal.new ≡ type_named known.now id name journal.old) }
{
    let found = match known.named_type(name) {
        None => Found::Offends(Refusal {
            rule: Rule::UnboundType,
            span: name,
        }),
        Some(meaning) => Found::NamesType(id, meaning.declaration),
    };
    journal.push(found)?;
    Ok(())
}

/// The names in a type expression.
#[cycle(types)]
pub fn type_expr(known: &Known, ty: &TyExpr, journal: &mut Items<Found>) -> Result<(), NoMemory>
    ensures { OnOk result (journal.new ≡ type_look known.now ty.now journal.old) }
{
    type_kind(known, ty.id, &ty.kind, journal)
}

#[cycle(types)]
fn type_kind(
    known: &Known,
    id: u32,
    kind: &TyKind,
    journal: &mut Items<Found>,
) -> Result<(), NoMemory>
    ensures { OnOk result (journal.new ≡ type_kind_look known.now kind.now id journal.old) }
{
    match kind {
        TyKind::Var(name) => Ok(journal.push(Found::Variable(id, *name))?),
        TyKind::Con { name, args } => {
            type_name(known, id, *name, journal)?;
            type_exprs(known, args.as_slice(), journal)
        }
        TyKind::Tuple(parts) => type_exprs(known, parts.as_slice(), journal),
        TyKind::Arrow { from, to } => {
            arg(known, from.get(), journal)?;
            arg(known, to.get(), journal)
        }
    }
}

/// The names in a type with words before it.
#[cycle(types)]
pub fn arg(known: &Known, arg: &Arg, journal: &mut Items<Found>) -> Result<(), NoMemory>
    ensures { OnOk result (journal.new ≡ arg_look known.now arg.now journal.old) }
{
    type_expr(known, &arg.ty, journal)
}

#[cycle(types)]
fn type_exprs(known: &Known, list: &[TyExpr], journal: &mut Items<Found>) -> Result<(), NoMemory>
    ensures { OnOk result (journal.new ≡ each (map (type_look known.now) list.now) journal.old) }
{
    for one in list {
        type_expr(known, one, journal)?;
    }
    Ok(())
}
