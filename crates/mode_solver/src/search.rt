ghost use Rattle.std.specs.Prelude.{◌≡◌, ℕ, ◌+◌, ◌<◌, ◌≤◌, ◌^◌, [], ◌∷◌, ◌++◌, length, None, Some, slice_get, slice_set, take, IfOk, OnOk, IfSome, IfNone};
ghost use Rattle.mode_lattice.specs.declared.clause.Form.TheVariants.{Imply, Force, Forbid};
ghost use Rattle.mode_solver.specs.Forms.{AllBelow, IsPath};
ghost use Rattle.mode_solver.specs.Graph.{entry};
ghost use Rattle.mode_solver.specs.Searching.{IsSearch, IsComplete, IsBlocked, IsOutcome};

use crate::implications::{Implications, nothing};
use crate::reach::Reach;
use mode_lattice::{Bit, Form};
use oxml_base::{Items, NoMemory};
use std::alloc::Global;

/// What the clauses so far leave of the tables.
#[derive(Drop)]
pub struct Search {
    pub implications: Implications,
    /// For each bit, a clause that forbids it.
    pub forbidden: Vec<Option<u32>>,
    pub reach: Reach,
}

/// The answer of a search over a list of forms.
#[derive(Drop)]
pub enum Outcome {
    /// The table that has the bits that each table which obeys the forms has. It obeys them.
    Least(Vec<bool>),
    /// The last form of the shortest beginning that no table obeys, and a path in that beginning.
    Conflict { last: u32, path: Items<u32> },
}

impl Search {
    pub fn new(alloc: Global, bits: u32) -> Result<Search, NoMemory>
        ensures complete { IfOk result (λ s. IsComplete [] s) }
        ensures count { IfOk result (λ s. length s.reach.place.items ≡ bits) }
    {
        Ok(Search {
            implications: Implications::new(alloc, bits)?,
            forbidden: nothing(alloc, bits)?,
            reach: Reach::new(alloc, bits)?,
        })
    }

    /// Takes the last of these forms, an implication between these bits. The answer is a bit that must be
    /// true and is forbidden.
    fn imply(
        &mut self,
        seen: &[Form],
        from: Bit,
        to: Bit,
        clause: u32,
    ) -> Result<Option<Bit>, NoMemory>
        requires before { IsComplete (take clause seen.now) self.old }
        requires last { slice_get seen.now clause ≡ Some (Imply from to) }
        requires count { length seen.now ≡ clause + 1 }
        requires below { AllBelow (length self.old.reach.place.items) seen.now }
        requires few { length self.old.reach.place.items < 2 ^ 32 }
        ensures count { OnOk result (length self.new.reach.place.items ≡ length self.old.reach.place.items) }
        ensures all { IfOk result (λ r. IfNone r (IsComplete seen.now self.new)) }
        ensures blocked { IfOk result (λ r. IfSome r (IsBlocked seen.now self.new)) }
    {
        let done = self.reach.reached.len();
        self.implications.add(from, clause)?;
        self.reach.step(from, to, clause)?;
        self.propagate(seen, done)
    }

    /// Takes the last of these forms, which forces this bit. The answer is that of `imply`.
    fn force(&mut self, seen: &[Form], bit: Bit, clause: u32) -> Result<Option<Bit>, NoMemory>
        requires before { IsComplete (take clause seen.now) self.old }
        requires last { slice_get seen.now clause ≡ Some (Force bit) }
        requires count { length seen.now ≡ clause + 1 }
        requires below { AllBelow (length self.old.reach.place.items) seen.now }
        requires few { length self.old.reach.place.items < 2 ^ 32 }
        ensures count { OnOk result (length self.new.reach.place.items ≡ length self.old.reach.place.items) }
        ensures all { IfOk result (λ r. IfNone r (IsComplete seen.now self.new)) }
        ensures blocked { IfOk result (λ r. IfSome r (IsBlocked seen.now self.new)) }
    {
        let done = self.reach.reached.len();
        self.implications.skip()?;
        self.reach.mark(bit, clause)?;
        self.propagate(seen, done)
    }

    /// Takes the last of these forms, which forbids this bit. The answer is that of `imply`.
    fn forbid(&mut self, seen: &[Form], bit: Bit, clause: u32) -> Result<Option<Bit>, NoMemory>
        requires before { IsComplete (take clause seen.now) self.old }
        requires last { slice_get seen.now clause ≡ Some (Forbid bit) }
        requires count { length seen.now ≡ clause + 1 }
        requires below { AllBelow (length self.old.reach.place.items) seen.now }
        ensures count { OnOk result (length self.new.reach.place.items ≡ length self.old.reach.place.items) }
        ensures all { IfOk result (λ r. IfNone r (IsComplete seen.now self.new)) }
        ensures blocked { IfOk result (λ r. IfSome r (IsBlocked seen.now self.new)) }
    {
        self.implications.skip()?;
        self.forbidden[bit.0 as usize] = Some(clause);
        if self.reach.place[bit.0 as usize].is_some() {
            return Ok(Some(bit));
        }
        Ok(None)
    }

    /// Follows the implications from the places that are not done.
    fn propagate(&mut self, seen: &[Form], done: usize) -> Result<Option<Bit>, NoMemory>
        requires search { IsSearch seen.now self.old done }
        requires start { done ≤ length self.old.reach.reached.items }
        requires below { AllBelow (length self.old.reach.place.items) seen.now }
        requires few { length self.old.reach.place.items < 2 ^ 32 }
        ensures count { OnOk result (length self.new.reach.place.items ≡ length self.old.reach.place.items) }
        ensures all { IfOk result (λ r. IfNone r (IsComplete seen.now self.new)) }
        ensures blocked { IfOk result (λ r. IfSome r (IsBlocked seen.now self.new)) }
    {
        self.reach
            .propagate(seen, &self.implications, self.forbidden.as_slice(), done)
    }

    /// Takes the last of these forms. The answer is a bit that must be true and is forbidden.
    fn add(&mut self, seen: &[Form], clause: u32) -> Result<Option<Bit>, NoMemory>
        requires before { IsComplete (take clause seen.now) self.old }
        requires count { length seen.now ≡ clause + 1 }
        requires below { AllBelow (length self.old.reach.place.items) seen.now }
        requires few { length self.old.reach.place.items < 2 ^ 32 }
        ensures count { OnOk result (length self.new.reach.place.items ≡ length self.old.reach.place.items) }
        ensures all { IfOk result (λ r. IfNone r (IsComplete seen.now self.new)) }
        ensures blocked { IfOk result (λ r. IfSome r (IsBlocked seen.now self.new)) }
    {
        match seen[clause as usize] {
            Form::Imply(from, to) => self.imply(seen, from, to, clause),
            Form::Force(bit) => self.force(seen, bit, clause),
            Form::Forbid(bit) => self.forbid(seen, bit, clause),
        }
    }

    /// The path to a bit that must be true and is forbidden.
    fn conflict(&self, alloc: Global, seen: &[Form], bit: Bit) -> Result<Items<u32>, NoMemory>
        requires blocked { IsBlocked seen.now self.now bit }
        requires below { AllBelow (length self.now.reach.place.items) seen.now }
        ensures { IfOk result (λ path. IsPath seen.now path) }
    {
        match self.forbidden[bit.0 as usize] {
            Some(forbidding) => self.reach.path(alloc, seen, bit, forbidding),
            None => unreachable!(),
        }
    }
}

/// Takes the forms in order, up to the first that leaves no table.
pub fn search_all(alloc: Global, bits: u32, forms: &[Form]) -> Result<Outcome, NoMemory>
    requires below { AllBelow bits forms.now }
    requires short { length forms.now < 2 ^ 32 }
    ensures { IfOk result (IsOutcome bits forms.now) }
{
    let mut state = Search::new(alloc, bits)?;
    for number in 0..forms.len() {
        let seen = &forms[..number + 1];
        let clause = number as u32;
        if let Some(bit) = state.add(seen, clause)? {
            let path = state.conflict(alloc, seen, bit)?;
            return Ok(Outcome::Conflict { last: clause, path });
        }
    }
    Ok(Outcome::Least(state.reach.table(alloc)?))
}
