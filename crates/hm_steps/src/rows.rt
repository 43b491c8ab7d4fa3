//! What rows of patterns and expressions have in common: names, constructors and records.
ghost use Rattle.std.specs.Prelude.{◌≡◌, ℕ, IfOk, Some};
ghost use Rattle.ml_typing.specs.Rows.{name_term, con_term, named_con, named_argument, declared_record, declared_field};
ghost use Rattle.ml_typing.specs.Typing.{find, names_of};

use crate::terms::{bool, fresh, list_of, nothing, unit};
use ml_tree::{ConName, Ref, Scoped};
use ml_typing::{Term, Unknown};
use oxml_base::NoMemory;
use std::alloc::Global;

/// What the node names.
fn target(s: &Scoped, node: u32) -> Option<Ref>
    ensures { result ≡ find s.now.refs node }
{
    s.target(node)
}

/// The type of the name that a node uses.
pub fn name_term(alloc: Global, s: &Scoped, node: u32) -> Term
    ensures { result ≡ name_term node (find s.now.refs node) }
{
    let Some(reference) = target(s, node) else {
        return nothing(alloc)
    };
    match reference {
        Ref::Top(binder) => Term::Top { binder, node },
        Ref::Local(binder) => Term::Of(Unknown::Binder(binder)),
        Ref::Operation(op) => Term::Operation { op, node },
        Ref::Con(_, _) | Ref::Field(_, _) | Ref::Decl(_) => nothing(alloc),
    }
}

/// The declaration of the constructor that a node names.
fn named_con(alloc: Global, s: &Scoped, node: u32) -> Term
    ensures { result ≡ named_con node (find s.now.refs node) }
{
    let Some(reference) = target(s, node) else {
        return nothing(alloc)
    };
    match reference {
        Ref::Con(decl, _) => Term::Made { decl, node },
        Ref::Top(_) | Ref::Local(_) | Ref::Operation(_) | Ref::Field(_, _) | Ref::Decl(_) => {
            nothing(alloc)
        }
    }
}

/// The declaration of a node's constructor.
pub fn con_term(alloc: Global, s: &Scoped, node: u32, name: ConName) -> Result<Term, NoMemory>
    ensures { IfOk result (λ t. (item : ℕ) → t ≡ con_term (names_of s.now.refs s.now.types item) node name) }
{
    match name {
        ConName::Named(_) => Ok(named_con(alloc, s, node)),
        ConName::True => Ok(bool(alloc)),
        ConName::False => Ok(bool(alloc)),
        ConName::Unit => Ok(unit(alloc)),
        ConName::Nil => list_of(alloc, fresh(node, 0)),
    }
}

/// The argument of a node's constructor.
pub fn argument(alloc: Global, s: &Scoped, node: u32) -> Term
    ensures { result ≡ named_argument node (find s.now.refs node) }
{
    let Some(reference) = target(s, node) else {
        return nothing(alloc)
    };
    match reference {
        Ref::Con(decl, con) => Term::Argument { decl, con, node },
        Ref::Top(_) | Ref::Local(_) | Ref::Operation(_) | Ref::Field(_, _) | Ref::Decl(_) => {
            nothing(alloc)
        }
    }
}

/// The declaration of a record that the node names, by itself or by one of its fields.
pub fn record_term(alloc: Global, s: &Scoped, node: u32) -> Term
    ensures { result ≡ declared_record node (find s.now.refs node) }
{
    let Some(reference) = target(s, node) else {
        return nothing(alloc)
    };
    match reference {
        Ref::Decl(decl) => Term::Made { decl, node },
        Ref::Field(decl, _) => Term::Made { decl, node },
        Ref::Top(_) | Ref::Local(_) | Ref::Operation(_) | Ref::Con(_, _) => nothing(alloc),
    }
}

/// The type of the field that `field` names, at the fresh types of `node`.
pub fn field_term(alloc: Global, s: &Scoped, field: u32, node: u32) -> Term
    ensures { result ≡ declared_field node (find s.now.refs field) }
{
    let Some(reference) = target(s, field) else {
        return nothing(alloc)
    };
    match reference {
        Ref::Field(decl, field) => Term::Field { decl, field, node },
        Ref::Top(_) | Ref::Local(_) | Ref::Operation(_) | Ref::Con(_, _) | Ref::Decl(_) => {
            nothing(alloc)
        }
    }
}
