//! Terms and equations, and lists of them.
ghost use Rattle.std.specs.Prelude.{◌≡◌, [], ◌∷◌, ◌++◌, IfOk};
ghost use Rattle.ml_typing.specs.Rows.{int, char, string, bool, unit, list_of, at, equation};
ghost use Rattle.ml_typing.specs.declared.equation.Term.TheVariants.{Of, Tuple};
ghost use Rattle.ml_typing.specs.declared.equation.Unknown.TheVariants.{Node};

use ml_typing::{Equation, Term, Unknown};
use oxml_base::{Items, NoMemory, Span};
use std::alloc::Global;

/// The declaration of this number, which has no parameter.
fn plain(alloc: Global, number: u32) -> Term
    ensures { result ≡ Term.Con number [] }
{
    Term::Con(number, Items::new(alloc))
}

pub fn int(alloc: Global) -> Term
    ensures { result ≡ int }
{
    plain(alloc, 0)
}

pub fn char(alloc: Global) -> Term
    ensures { result ≡ char }
{
    plain(alloc, 1)
}

pub fn string(alloc: Global) -> Term
    ensures { result ≡ string }
{
    plain(alloc, 2)
}

pub fn bool(alloc: Global) -> Term
    ensures { result ≡ bool }
{
    plain(alloc, 3)
}

pub fn unit(alloc: Global) -> Term
    ensures { result ≡ unit }
{
    plain(alloc, 4)
}

/// One term alone.
pub fn single(alloc: Global, term: Term) -> Result<Items<Term>, NoMemory>
    ensures { IfOk result (λ ts. ts ≡ term ∷ []) }
{
    let mut list = Items::new(alloc);
    list.push(term)?;
    Ok(list)
}

/// The list of this element.
pub fn list_of(alloc: Global, element: Term) -> Result<Term, NoMemory>
    ensures { IfOk result (λ t. t ≡ list_of element) }
{
    Ok(Term::Con(5, single(alloc, element)?))
}

/// What stands for the type of a name that has no reference.
pub fn nothing(alloc: Global) -> Term
    ensures { result ≡ Tuple [] }
{
    Term::Tuple(Items::new(alloc))
}

/// The type of a node.
pub fn node(number: u32) -> Term
    ensures { result ≡ Of (Node number) }
{
    Term::Of(Unknown::Node(number))
}

/// A fresh type of a node.
pub fn fresh(node: u32, number: u32) -> Term
    ensures { result ≡ at node number }
{
    Term::Of(Unknown::Fresh(node, number))
}

/// One equation.
pub fn one(
    alloc: Global,
    part: Span,
    left: Unknown,
    right: Term,
) -> Result<Items<Equation>, NoMemory>
    ensures { IfOk result (λ es. es ≡ equation part left right ∷ []) }
{
    let mut list = Items::new(alloc);
    list.push(Equation { part, left, right })?;
    Ok(list)
}

/// One equation more.
pub fn and(
    list: Items<Equation>,
    part: Span,
    left: Unknown,
    right: Term,
) -> Result<Items<Equation>, NoMemory>
    ensures { IfOk result (λ es. es ≡ list ++ equation part left right ∷ []) }
{
    let mut more = list;
    more.push(Equation { part, left, right })?;
    Ok(more)
}
