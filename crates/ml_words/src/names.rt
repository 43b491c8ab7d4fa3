ghost use Rattle.std.specs.Prelude.{◌≡◌};
ghost use Rattle.ml_meaning.specs.Names.{lookup, place_of, field_of, constructor_place, field_place};
ghost use Rattle.ml_meaning.specs.Operations.{operation_arity};
ghost use Rattle.ml_words.specs.Named.{targets, operation_of};

use ml_tree::{ConName, Op, Ref, Scoped};

/// What the node of this number names; `None` where it names nothing.
#[tactic(auto, using(crate::proofs::Lookups::none_is_lookup))]
pub fn target(s: &Scoped, node: u32) -> Option<Ref>
    ensures { result ≡ lookup node s.now.refs }
{
    match s.target(node) {
        Some(to) => Some(to),
        None => None,
    }
}

fn place_of(to: Option<Ref>) -> Option<u32>
    ensures { result ≡ place_of to }
{
    match to {
        Some(Ref::Con(_, place)) => Some(place),
        Some(Ref::Field(_, _)) => None,
        Some(Ref::Top(_)) => None,
        Some(Ref::Local(_)) => None,
        Some(Ref::Operation(_)) => None,
        Some(Ref::Decl(_)) => None,
        None => None,
    }
}

/// The place in its declaration of the constructor that a node names.
pub fn constructor_place(s: &Scoped, name: ConName, node: u32) -> Option<u32>
    ensures { result ≡ constructor_place (targets s.now) name node }
{
    match name {
        ConName::Named(_) => place_of(target(s, node)),
        ConName::True => Some(1),
        ConName::False => Some(0),
        ConName::Unit => Some(0),
        ConName::Nil => Some(0),
    }
}

fn field_of(to: Option<Ref>) -> Option<u32>
    ensures { result ≡ field_of to }
{
    match to {
        Some(Ref::Field(_, place)) => Some(place),
        Some(Ref::Con(_, _)) => None,
        Some(Ref::Top(_)) => None,
        Some(Ref::Local(_)) => None,
        Some(Ref::Operation(_)) => None,
        Some(Ref::Decl(_)) => None,
        None => None,
    }
}

/// The place in its record of the field that a node names.
pub fn field_place(s: &Scoped, node: u32) -> Option<u32>
    ensures { result ≡ field_place (targets s.now) node }
{
    field_of(target(s, node))
}

fn operation_of(to: Option<Ref>) -> Option<Op>
    ensures { result ≡ operation_of to }
{
    match to {
        Some(Ref::Operation(op)) => Some(op),
        Some(Ref::Con(_, _)) => None,
        Some(Ref::Field(_, _)) => None,
        Some(Ref::Top(_)) => None,
        Some(Ref::Local(_)) => None,
        Some(Ref::Decl(_)) => None,
        None => None,
    }
}

/// The operation that a node names.
pub fn operation(s: &Scoped, node: u32) -> Option<Op>
    ensures { result ≡ operation_of (targets s.now node) }
{
    operation_of(target(s, node))
}

/// How many arguments an operation takes.
pub fn operation_arity(op: Op) -> usize
    ensures { result ≡ operation_arity op }
{
    match op {
        Op::StringGet => 2,
        _ => 1,
    }
}
