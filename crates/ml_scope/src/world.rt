//! What is in scope between the items of a program.
ghost use Rattle.std.specs.Prelude.{◌≡◌, IfOk, OnOk};
ghost use Rattle.ml_scope.specs.Items.{constructor_at, type_at, operation, predefined_values, predefined_types, predefined_constructors, start};

use crate::found::Found;
use crate::known::Known;
use crate::meaning::Meaning;
use crate::scope::Scope;
use ml_tree::{Op, Ref};
use oxml_base::{Items, NoMemory};
use std::alloc::Global;

/// What is in scope between the items of a program, and what was found so far.
#[derive(Drop)]
pub struct World<'a> {
    pub known: Known<'a>,
    pub values: Scope,
    /// The number of the next declaration.
    pub next: u32,
    pub journal: Items<Found>,
}

/// What the name of a type means.
pub fn type_at(declaration: u32) -> Meaning
    ensures { result ≡ type_at declaration }
{
    Meaning {
        target: Ref::Decl(declaration),
        declaration,
        place: 0,
        parts: 0,
    }
}

/// What the name of a constructor of so many fields means.
pub fn constructor_at(declaration: u32, place: u32, parts: u32) -> Meaning
    ensures { result ≡ constructor_at declaration place parts }
{
    Meaning {
        target: Ref::Con(declaration, place),
        declaration,
        place,
        parts,
    }
}

fn operation(op: Op) -> Meaning
    ensures { result ≡ operation op }
{
    Meaning {
        target: Ref::Operation(op),
        declaration: 0,
        place: 0,
        parts: 0,
    }
}

fn predefined_types(alloc: Global) -> Result<Scope, NoMemory>
    ensures { IfOk result (λ scope. scope ≡ predefined_types) }
{
    let mut scope = Scope::new(alloc);
    scope.bind("int".as_bytes(), type_at(0))?;
    scope.bind("char".as_bytes(), type_at(1))?;
    scope.bind("string".as_bytes(), type_at(2))?;
    scope.bind("bool".as_bytes(), type_at(3))?;
    scope.bind("unit".as_bytes(), type_at(4))?;
    scope.bind("list".as_bytes(), type_at(5))?;
    scope.bind("option".as_bytes(), type_at(6))?;
    Ok(scope)
}

fn predefined_constructors(alloc: Global) -> Result<Scope, NoMemory>
    ensures { IfOk result (λ scope. scope ≡ predefined_constructors) }
{
    let mut scope = Scope::new(alloc);
    scope.bind("None".as_bytes(), constructor_at(6, 0, 0))?;
    scope.bind("Some".as_bytes(), constructor_at(6, 1, 1))?;
    Ok(scope)
}

fn predefined_values(alloc: Global) -> Result<Scope, NoMemory>
    ensures { IfOk result (λ scope. scope ≡ predefined_values) }
{
    let mut scope = Scope::new(alloc);
    scope.bind("print_string".as_bytes(), operation(Op::PrintString))?;
    scope.bind("print_int".as_bytes(), operation(Op::PrintInt))?;
    scope.bind("print_char".as_bytes(), operation(Op::PrintChar))?;
    scope.bind("prerr_string".as_bytes(), operation(Op::PrerrString))?;
    scope.bind("string_of_int".as_bytes(), operation(Op::StringOfInt))?;
    scope.bind("int_of_char".as_bytes(), operation(Op::IntOfChar))?;
    scope.bind("char_of_int".as_bytes(), operation(Op::CharOfInt))?;
    scope.bind("exit".as_bytes(), operation(Op::Exit))?;
    scope.bind("failwith".as_bytes(), operation(Op::Failwith))?;
    Ok(scope)
}

impl<'a> World<'a> {
    /// What is predefined; declarations 0 to 6 are.
    pub fn start(alloc: Global, text: &'a [u8]) -> Result<World<'a>, NoMemory>
        ensures { IfOk result (λ w. w ≡ start text.now) }
    {
        let types = predefined_types(alloc)?;
        let constructors = predefined_constructors(alloc)?;
        let values = predefined_values(alloc)?;
        Ok(World {
            known: Known {
                alloc,
                text,
                constructors,
                fields: Scope::new(alloc),
                types,
            },
            values,
            next: 7,
            journal: Items::new(alloc),
        })
    }
}
