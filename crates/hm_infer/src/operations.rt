//! The solver before the first item: the declared types, and those of the predefined operations.
ghost use Rattle.std.specs.Prelude.{IfOk, OnOk, []};
ghost use Rattle.ml_types.specs.declared.node.TyId.{TyId as TyIdValue};
ghost use Rattle.ml_types.specs.declared.node.TyNode.TheVariants.{Con};
ghost use Rattle.ml_types.specs.Types.{Tree};
ghost use Rattle.ml_typing.specs.Typing.{Reads, first_context};
ghost use Rattle.hm_terms.specs.Stores.{store, AddsNode};
ghost use Rattle.hm_terms.specs.Contexts.{IsRead};
ghost use Rattle.hm_infer.specs.Starts.{AddsFunction, IsFirst, HaveTypes, AreBasic, operation_types};
ghost use Rattle.hm_infer.specs.Running.{HasNoIds};

use crate::declared::declare_all;
use crate::table::slots_of;
use hm_terms::Solver;
use ml_types::{Decls, TyId, TyNode, TyTable};
use oxml_base::{Items, NoMemory};
use std::alloc::Global;

/// The types of which those of the operations are made.
#[derive(Clone, Copy)]
struct Basic {
    int: TyId,
    char: TyId,
    string: TyId,
    unit: TyId,
    /// A variable.
    any: TyId,
}

/// A solver before the first item: the declared types with their abbreviations expanded, and the types
/// of the operations.
#[tactic(auto, using(crate::proofs::Starting::no_table))]
pub fn first_solver(alloc: Global, d: &Decls, table: &TyTable) -> Result<Solver, NoMemory>
    ensures read { IfOk result (λ s. (declared : TyIdValue → Tree) → Reads d.now.types table.now.nodes declared → IsRead (store s) d.now.types (first_context d.now.types declared)) }
    ensures forgotten { IfOk result (λ s. HasNoIds (store s)) }
{
    let slots = slots_of(table)?;
    let none = TyTable {
        nodes: Items::new(alloc),
    };
    let mut solver = Solver::new(alloc, none, slots)?;
    declare_all(&mut solver, d, table)?;
    solver.next_item();
    add_operations(&mut solver)?;
    solver.next_item();
    Ok(solver)
}

/// The type of a declaration without parameters.
fn plain(solver: &mut Solver, decl: u32) -> Result<TyId, NoMemory>
    ensures { IfOk result (λ id. AddsNode (store solver.old) (store solver.new) (Con decl []) id) }
{
    let args = Items::new(solver.alloc);
    solver.add(TyNode::Con(decl, args))
}

/// The basic types over which no operation has a type yet. The result of `exit` and of `failwith` is a
/// variable.
fn basic_types(solver: &mut Solver) -> Result<Basic, NoMemory>
    ensures { IfOk result (λ b. IsFirst (store solver.old) → HaveTypes (store solver.old) (store solver.new) [] × AreBasic (store solver.new) b) }
{
    let int = plain(solver, 0)?;
    let char = plain(solver, 1)?;
    let string = plain(solver, 2)?;
    let unit = plain(solver, 4)?;
    let any = solver.add(TyNode::Var(0))?;
    Ok(Basic {
        int,
        char,
        string,
        unit,
        any,
    })
}

/// Gives each operation its type, in the order of the operations.
fn add_operations(solver: &mut Solver) -> Result<(), NoMemory>
    ensures { OnOk result (IsFirst (store solver.old) → HaveTypes (store solver.old) (store solver.new) operation_types) }
{
    let t = basic_types(solver)?;
    add(solver, t.string, t.unit)?;
    add(solver, t.int, t.unit)?;
    add(solver, t.char, t.unit)?;
    add(solver, t.string, t.unit)?;
    add(solver, t.int, t.string)?;
    add(solver, t.char, t.int)?;
    add(solver, t.int, t.char)?;
    add(solver, t.string, t.int)?;
    let behind_text = solver.arrow(t.int, t.char)?;
    add(solver, t.string, behind_text)?;
    add(solver, t.int, t.any)?;
    add(solver, t.string, t.any)
}

/// The next operation is a function from one type to another.
fn add(solver: &mut Solver, from: TyId, to: TyId) -> Result<(), NoMemory>
    ensures { OnOk result (AddsFunction (store solver.old) (store solver.new) from to) }
{
    let id = solver.arrow(from, to)?;
    solver.add_operation(id)
}
