//! The names and the variables of type expressions.
ghost use Rattle.std.specs.Prelude.{◌≡◌, ◌++◌, map, OnOk};
ghost use Rattle.ml_mentions.specs.Lists.{all};
ghost use Rattle.ml_mentions.specs.Mentions.{mentions, kind_mentions, arg_mentions};

use ml_tree::{Arg, TyExpr, TyKind};
use oxml_base::{Items, NoMemory, Span};

/// A name or a variable in a type expression, by the number of that type expression.
#[derive(Clone, Copy)]
pub enum Mention {
    /// A name behind so many arguments, and the span of the whole.
    Named {
        id: u32,
        whole: Span,
        arguments: usize,
    },
    Variable {
        id: u32,
        place: Span,
    },
}

/// Adds the names and variables of a type expression, in the order of the source, to a list.
#[cycle(types)]
pub fn push_mentions(ty: &TyExpr, list: &mut Items<Mention>) -> Result<(), NoMemory>
    ensures { OnOk result (list.new ≡ list.old ++ mentions ty.now) }
{
    push_kind(ty.id, ty.span, &ty.kind, list)
}

#[cycle(types)]
fn push_kind(id: u32, whole: Span, kind: &TyKind, list: &mut Items<Mention>) -> Result<(), NoMemory>
    ensures { OnOk result (list.new ≡ list.old ++ kind_mentions kind.now id whole) }
{
    match kind {
        TyKind::Var(_) => Ok(list.push(Mention::Variable { id, place: whole })?),
        TyKind::Con { name: _, args } => {
            list.push(Mention::Named {
                id,
                whole,
                arguments: args.len(),
            })?;
            push_types(args.as_slice(), list)
        }
        TyKind::Tuple(parts) => push_types(parts.as_slice(), list),
        TyKind::Arrow { from, to } => {
            push_arg(from.get(), list)?;
            push_arg(to.get(), list)
        }
    }
}

/// The same of a type with its words.
#[cycle(types)]
pub fn push_arg(arg: &Arg, list: &mut Items<Mention>) -> Result<(), NoMemory>
    ensures { OnOk result (list.new ≡ list.old ++ arg_mentions arg.now) }
{
    push_mentions(&arg.ty, list)
}

#[cycle(types)]
fn push_types(types: &[TyExpr], list: &mut Items<Mention>) -> Result<(), NoMemory>
    ensures { OnOk result (list.new ≡ list.old ++ all (map mentions types.now)) }
{
    for one in types {
        push_mentions(one, list)?;
    }
    Ok(())
}
