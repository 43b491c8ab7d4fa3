//! The references of a program, as its journal has them.
ghost use Rattle.std.specs.Prelude.{◌≡◌, IfOk, OnOk};
ghost use Rattle.ml_scope.specs.Names.{spelling};
ghost use Rattle.ml_scope.specs.Readings.{with_reference, references, variable_at, variable_place, with_variable, with_type_reference, type_references};

use crate::found::Found;
use crate::known::spelling;
use crate::meaning::Meaning;
use crate::scope::Scope;
use ml_tree::{Ref, TyRef};
use oxml_base::{Items, NoMemory, Span};
use std::alloc::Global;

fn with_reference(found: Found, list: &mut Items<(u32, Ref)>) -> Result<(), NoMemory>
    ensures { OnOk result (list.new ≡ with_reference found list.old) }
{
    match found {
        Found::Names(node, target) => Ok(list.push((node, target))?),
        _ => Ok(()),
    }
}

/// What the nodes of a program name.
pub fn references(alloc: Global, journal: &[Found]) -> Result<Items<(u32, Ref)>, NoMemory>
    ensures { IfOk result (λ list. list ≡ references journal.now) }
{
    let mut list = Items::new(alloc);
    for found in journal {
        with_reference(*found, &mut list)?;
    }
    Ok(list)
}

/// The type variables of an item or of a declaration, and what type expressions name so far.
#[derive(Drop)]
pub struct TypeNames {
    pub variables: Scope,
    pub list: Items<(u32, TyRef)>,
}

fn variable_at(place: u32) -> Meaning
    ensures { result ≡ variable_at place }
{
    Meaning {
        target: Ref::Local(place),
        declaration: 0,
        place,
        parts: 0,
    }
}

/// The number of a type variable: its place in the order of first use.
fn variable(text: &[u8], name: Span, variables: &mut Scope) -> Result<u32, NoMemory>
    ensures place { IfOk result (λ n. n ≡ variable_place variables.old (spelling text.now name)) }
    ensures variables { OnOk result (variables.new ≡ with_variable variables.old (spelling text.now name)) }
{
    let bytes = spelling(text, name);
    match variables.find(bytes) {
        Some(meaning) => Ok(meaning.place),
        None => {
            let Ok(place) = u32::try_from(variables.len()) else {
                return Err(NoMemory)
            };
            variables.bind(bytes, variable_at(place))?;
            Ok(place)
        }
    }
}

fn with_type_reference(
    alloc: Global,
    text: &[u8],
    found: Found,
    names: &mut TypeNames,
) -> Result<(), NoMemory>
    ensures { OnOk result (names.new ≡ with_type_reference text.now found names.old) }
{
    match found {
        Found::NamesType(id, declaration) => Ok(names.list.push((id, TyRef::Decl(declaration)))?),
        Found::Variable(id, name) => {
            let place = variable(text, name, &mut names.variables)?;
            Ok(names.list.push((id, TyRef::Var(place)))?)
        }
        Found::Lists(name) => {
            variable(text, name, &mut names.variables)?;
            Ok(())
        }
        Found::Anew => {
            names.variables = Scope::new(alloc);
            Ok(())
        }
        _ => Ok(()),
    }
}

/// What the type expressions of a program name.
pub fn type_references(
    alloc: Global,
    text: &[u8],
    journal: &[Found],
) -> Result<Items<(u32, TyRef)>, NoMemory>
    ensures { IfOk result (λ list. list ≡ type_references text.now journal.now) }
{
    let mut names = TypeNames {
        variables: Scope::new(alloc),
        list: Items::new(alloc),
    };
    for found in journal {
        with_type_reference(alloc, text, *found, &mut names)?;
    }
    let TypeNames { variables: _, list } = names;
    Ok(list)
}
