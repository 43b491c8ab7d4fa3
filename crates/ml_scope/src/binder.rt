//! The names that a pattern binds.
ghost use Rattle.std.specs.Prelude.{◌≡◌, map, OnOk};
ghost use Rattle.ml_scope.specs.Journal.{each};
ghost use Rattle.ml_scope.specs.Patterns.{binders, kind_binders, field_binders, param_binders};

use ml_tree::{FieldPat, Param, Pat, PatKind};
use oxml_base::{Items, NoMemory, Span};

/// A name that a pattern binds, with the number of its node.
#[derive(Clone, Copy, Debug, PartialEq, Eq)]
pub struct Binder {
    pub name: Span,
    pub node: u32,
}

/// The names that a pattern binds, in the order of the source, behind those that are there.
#[cycle(binders)]
pub fn binders(pat: &Pat, list: &mut Items<Binder>) -> Result<(), NoMemory>
    ensures { OnOk result (list.new ≡ binders pat.now list.old) }
{
    of_kind(pat.id, &pat.kind, list)
}

#[cycle(binders)]
fn of_kind(id: u32, kind: &PatKind, list: &mut Items<Binder>) -> Result<(), NoMemory>
    ensures { OnOk result (list.new ≡ kind_binders kind.now id list.old) }
{
    match kind {
        PatKind::Name(_, name) => Ok(list.push(Binder {
            name: *name,
            node: id,
        })?),
        PatKind::Con { name: _, arg } => match arg {
            Some(inner) => binders(inner.get(), list),
            None => Ok(()),
        },
        PatKind::Cons(one, other) | PatKind::Or(one, other) => {
            binders(one.get(), list)?;
            binders(other.get(), list)
        }
        PatKind::Tuple(parts) | PatKind::List(parts) => of_patterns(parts.as_slice(), list),
        PatKind::Fields {
            list: fields,
            rest: _,
        } => of_fields(fields.as_slice(), list),
        PatKind::Named(inner, name) => {
            binders(inner.get(), list)?;
            Ok(list.push(Binder {
                name: *name,
                node: id,
            })?)
        }
        PatKind::Typed(inner, _) | PatKind::Paren(inner) => binders(inner.get(), list),
        _ => Ok(()),
    }
}

#[cycle(binders)]
fn of_patterns(parts: &[Pat], list: &mut Items<Binder>) -> Result<(), NoMemory>
    ensures { OnOk result (list.new ≡ each (map binders parts.now) list.old) }
{
    for one in parts {
        binders(one, list)?;
    }
    Ok(())
}

#[cycle(binders)]
fn of_fields(parts: &[FieldPat], list: &mut Items<Binder>) -> Result<(), NoMemory>
    ensures { OnOk result (list.new ≡ each (map field_binders parts.now) list.old) }
{
    for one in parts {
        of_field(one, list)?;
    }
    Ok(())
}

#[cycle(binders)]
fn of_field(field: &FieldPat, list: &mut Items<Binder>) -> Result<(), NoMemory>
    ensures { OnOk result (list.new ≡ field_binders field.now list.old) }
{
    binders(&field.pat, list)
}

/// The names that the parameters of one function bind.
pub fn of_params(params: &[Param], list: &mut Items<Binder>) -> Result<(), NoMemory>
    ensures { OnOk result (list.new ≡ each (map param_binders params.now) list.old) }
{
    for one in params {
        binders(&one.pat, list)?;
    }
    Ok(())
}
