//! The types of a program, or the first reason why it has none.
ghost use Rattle.std.specs.Prelude.{IfOk, IfErr};
ghost use Rattle.ml_types.specs.declared.node.TyId.{TyId as TyIdValue};
ghost use Rattle.ml_types.specs.Types.{Tree};
ghost use Rattle.ml_typing.specs.Typing.{Reads, first_context};
ghost use Rattle.hm_infer.specs.Spelled.{ProgramRuns};
ghost use Rattle.hm_infer.specs.Answers.{IsTypedAs, IsRefusedBy, items_of};

use crate::error::InferErr;
use crate::items::{Found, infer_item};
use crate::operations::first_solver;
use crate::table::typed;
use ml_tree::Scoped;
use ml_types::{Decls, TyTable};
use ml_typing::Typed;
use oxml_base::{Refusal, Rule};
use std::alloc::Global;

/// The principal types of a program over its declarations and the table that holds their types.
///
/// Refused by rule 40 or 41 at the part of the program whose equation leaves no solution, and by rule
/// 42 at the first comparison of other values than `int`, `char`, `bool`, `unit` and `string`. The
/// limit has the span of the first step behind which a type has more than 2,000 nodes as a tree. Of a
/// refusal by rule 40 or 41 and the limit the earlier step is named, and the rule where they are one.
/// A program that does not fit its references and declarations is answered by `NoMemory`.
pub fn infer(alloc: Global, s: &Scoped, d: &Decls, t: TyTable) -> Result<Typed, InferErr>
    ensures ok { IfOk result (λ typed. (declared : TyIdValue → Tree) → Reads d.now.types t.nodes declared → IsTypedAs (first_context d.now.types declared) (items_of s.now) s.now.program.nodes typed) }
    ensures err { IfErr result (λ e. (declared : TyIdValue → Tree) → Reads d.now.types t.nodes declared → IsRefusedBy (first_context d.now.types declared) (items_of s.now) e) }
    ensures slots { IfOk result (λ typed. (declared : TyIdValue → Tree) → Reads d.now.types t.nodes declared → ProgramRuns (first_context d.now.types declared) d.now.types (items_of s.now) typed) }
{
    let program = s.program();
    let items = program.items.as_slice();
    let mut solver = first_solver(alloc, d, &t)?;
    let mut found = Found::new(alloc);
    for number in 0..items.len() {
        if let Err(error) = infer_item(&mut solver, s, d, &items[number], &mut found) {
            return Err(error);
        }
    }
    match found.bad {
        Some(span) => Err(InferErr::Refused(Refusal {
            rule: Rule::Comparison,
            span,
        })),
        None => Ok(typed(solver, program.nodes, &found.nodes)?),
    }
}
