//! The names of a program, resolved.
ghost use Rattle.std.specs.Prelude.{◌≡◌, IfOk, IfErr};
ghost use Rattle.ml_numbers.specs.Ids.{IsNumbered};
ghost use Rattle.ml_scope.specs.Captures.{OpensRise};
ghost use Rattle.ml_scope.specs.Resolving.{IsResolved, Explains, HasNames, found_in};

use crate::captures::{MOST_CAPTURES, too_many_captures};
use crate::items::program;
use crate::offences::first_offence;
use crate::references::{references, type_references};
use crate::world::World;
use ml_tree::{Item, Program, Ref, Scoped, TyRef};
use oxml_base::{Items, Limit, Refusal};
use std::alloc::Global;

/// Why the names of a program were not resolved.
#[derive(Clone, Copy, Debug, PartialEq, Eq)]
pub enum ScopeErr {
    /// The first violation of rules 20 to 25: that with the least start, then the least rule, then
    /// the least end.
    Refused(Refusal),
    /// No rule is violated, but the functions have more than `MOST_CAPTURES` captures together.
    Limit(Limit),
    NoMemory,
}

/// What the nodes and the type expressions of a program name.
#[derive(Drop)]
pub struct Targets {
    pub refs: Items<(u32, Ref)>,
    pub types: Items<(u32, TyRef)>,
}

/// What the nodes and the type expressions of items name. The functions of the items begin in the
/// order of their numbers.
#[tactic(auto, using(crate::proofs::Firsts::first_is, crate::proofs::Firsts::none_is, crate::proofs::Crossings::many_walked, crate::proofs::Crossings::few_walked))]
fn found_names(alloc: Global, text: &[u8], items: &[Item]) -> Result<Targets, ScopeErr>
    requires { OpensRise (found_in text.now items.now) }
    ensures ok { IfOk result (HasNames text.now items.now) }
    ensures err { IfErr result (Explains text.now items.now) }
{
    let Ok(world) = program(alloc, text, items) else {
        return Err(ScopeErr::NoMemory)
    };
    let journal = world.journal.as_slice();
    if let Some(refusal) = first_offence(journal) {
        return Err(ScopeErr::Refused(refusal));
    }
    let Ok(many) = too_many_captures(alloc, journal) else {
        return Err(ScopeErr::NoMemory)
    };
    if many {
        return Err(ScopeErr::Limit(Limit::Captures(MOST_CAPTURES as u64 + 1)));
    }
    let Ok(refs) = references(alloc, journal) else {
        return Err(ScopeErr::NoMemory)
    };
    let Ok(types) = type_references(alloc, text, journal) else {
        return Err(ScopeErr::NoMemory)
    };
    Ok(Targets { refs, types })
}

/// The program with what its names stand for. The text is the file's bytes followed by the
/// prelude's, over which the spans count. The nodes of the program are numbered in the order of the
/// source.
#[tactic(auto, using(crate::proofs::ProgramGrows::opens_rise, crate::proofs::ProgramGrows::refs_rise, crate::proofs::ProgramGrows::types_rise))]
pub fn resolve(alloc: Global, text: &[u8], p: Program) -> Result<Scoped, ScopeErr>
    requires { IsNumbered p }
    ensures ok { IfOk result (IsResolved text.now p) }
    ensures err { IfErr result (Explains text.now p.items) }
{
    match found_names(alloc, text, p.items.as_slice()) {
        Err(error) => Err(error),
        Ok(found) => Ok(Scoped::new(p, found.refs, found.types)),
    }
}
