ghost use Rattle.std.specs.Prelude.{◌≡◌, ℕ, ◌+◌, ◌<◌, ◌≤◌, ◌^◌, ◌↔◌, [], ◌∷◌, ◌++◌, length, map, None, Some, is_some, slice_get, slice_index_or, slice_set, IfOk, OnOk, IfSome, IfNone, IsTrue, replicate};
ghost use Rattle.mode_lattice.specs.declared.clause.Bit.{Bit};
ghost use Rattle.mode_lattice.specs.declared.clause.Form.TheVariants.{Imply, Force, Forbid};
ghost use Rattle.mode_solver.specs.Forms.{AllBelow, IsPath};
ghost use Rattle.mode_solver.specs.Graph.{entry, IsGraph, IsMarked};
ghost use Rattle.mode_solver.specs.Reaching.{IsOn, IsReach, Grows, Marks, IsDone, Cause};

use crate::implications::{Implications, nothing};
use mode_lattice::{Bit, Form};
use oxml_base::{Items, NoMemory};
use std::alloc::Global;

/// A bit that is true in each table that obeys the clauses, and the clause that shows it last.
#[derive(Clone, Copy, Drop)]
pub struct Reached {
    pub bit: Bit,
    pub clause: u32,
}

/// The bits that must be true by the clauses so far.
#[derive(Drop)]
pub struct Reach {
    /// The place of each bit among those reached.
    pub place: Vec<Option<u32>>,
    /// In the order in which they were found: the source of an implication stands before its target.
    pub reached: Vec<Reached>,
}

impl Reach {
    pub fn new(alloc: Global, bits: u32) -> Result<Reach, NoMemory>
        ensures place { IfOk result (λ s. s.place.items ≡ replicate bits None) }
        ensures reached { IfOk result (λ s. s.reached.items ≡ []) }
    {
        Ok(Reach {
            place: nothing(alloc, bits)?,
            reached: Vec::new(alloc),
        })
    }

    /// The bit is true by this clause.
    pub fn mark(&mut self, bit: Bit, clause: u32) -> Result<(), NoMemory>
        requires within { bit.0 < length self.old.place.items }
        requires short { length self.old.reached.items < 2 ^ 32 }
        ensures { OnOk result (Marks self.old.place.items self.old.reached.items bit clause self.new.place.items self.new.reached.items) }
    {
        if self.place[bit.0 as usize].is_none() {
            let at = self.reached.len() as u32;
            self.reached.push(Reached { bit, clause })?;
            self.place[bit.0 as usize] = Some(at);
        }
        Ok(())
    }

    /// A clause implies the second bit from the first: it is true where the first is reached.
    pub fn step(&mut self, from: Bit, to: Bit, clause: u32) -> Result<(), NoMemory>
        requires source { from.0 < length self.old.place.items }
        requires target { to.0 < length self.old.place.items }
        requires short { length self.old.reached.items < 2 ^ 32 }
        ensures on { OnOk result (IsOn self.old.place.items from → Marks self.old.place.items self.old.reached.items to clause self.new.place.items self.new.reached.items) }
        ensures off { OnOk result (entry self.old.place.items from.0 ≡ None → (self.new.place.items ≡ self.old.place.items) × (self.new.reached.items ≡ self.old.reached.items)) }
    {
        if self.place[from.0 as usize].is_some() {
            self.mark(to, clause)?;
        }
        Ok(())
    }

    /// Marks the bit that this clause implies from one that is reached.
    fn visit(&mut self, seen: &[Form], clause: u32) -> Result<(), NoMemory>
        requires reach { IsReach seen.now self.old.place.items self.old.reached.items }
        requires implies { (a b : Bit) × (slice_get seen.now clause ≡ Some (Imply a b)) × IsOn self.old.place.items a }
        requires below { AllBelow (length self.old.place.items) seen.now }
        requires few { length self.old.place.items < 2 ^ 32 }
        ensures reach { OnOk result (IsReach seen.now self.new.place.items self.new.reached.items) }
        ensures grows { OnOk result (Grows self.old.place.items self.old.reached.items self.new.place.items self.new.reached.items) }
        ensures on { OnOk result ((a b : Bit) → slice_get seen.now clause ≡ Some (Imply a b) → IsOn self.new.place.items b) }
    {
        match seen[clause as usize] {
            Form::Imply(_, to) => self.mark(to, clause),
            _ => unreachable!(),
        }
    }

    /// Marks each bit that a clause implies from this one.
    pub fn follow(
        &mut self,
        seen: &[Form],
        implications: &Implications,
        bit: Bit,
    ) -> Result<(), NoMemory>
        requires graph { IsGraph seen.now implications.now.first.items implications.now.next.items }
        requires reach { IsReach seen.now self.old.place.items self.old.reached.items }
        requires on { IsOn self.old.place.items bit }
        requires below { AllBelow (length self.old.place.items) seen.now }
        requires first { length implications.now.first.items ≡ length self.old.place.items }
        requires few { length self.old.place.items < 2 ^ 32 }
        ensures reach { OnOk result (IsReach seen.now self.new.place.items self.new.reached.items) }
        ensures grows { OnOk result (Grows self.old.place.items self.old.reached.items self.new.place.items self.new.reached.items) }
        ensures implied { OnOk result ((b : Bit) (j : ℕ) → slice_get seen.now j ≡ Some (Imply bit b) → IsOn self.new.place.items b) }
    {
        let mut edge = implications.first[bit.0 as usize];
        while let Some(clause) = edge {
            self.visit(seen, clause)?;
            edge = implications.next[clause as usize];
        }
        Ok(())
    }

    /// Follows the implications from each place that is not done, up to a bit that is forbidden, which is
    /// the answer.
    pub fn propagate(
        &mut self,
        seen: &[Form],
        implications: &Implications,
        forbidden: &[Option<u32>],
        mut done: usize,
    ) -> Result<Option<Bit>, NoMemory>
        requires graph { IsGraph seen.now implications.now.first.items implications.now.next.items }
        requires reach { IsReach seen.now self.old.place.items self.old.reached.items }
        requires start { done ≤ length self.old.reached.items }
        requires done { IsDone seen.now forbidden.now self.old.place.items self.old.reached.items done }
        requires below { AllBelow (length self.old.place.items) seen.now }
        requires first { length implications.now.first.items ≡ length self.old.place.items }
        requires forbidden { length forbidden.now ≡ length self.old.place.items }
        requires few { length self.old.place.items < 2 ^ 32 }
        ensures reach { OnOk result (IsReach seen.now self.new.place.items self.new.reached.items) }
        ensures count { OnOk result (length self.new.place.items ≡ length self.old.place.items) }
        ensures all { IfOk result (λ r. IfNone r (IsDone seen.now forbidden.now self.new.place.items self.new.reached.items (length self.new.reached.items))) }
        ensures blocked { IfOk result (λ r. IfSome r (λ bit. IsOn self.new.place.items bit × IsOn forbidden.now bit)) }
    {
        while done < self.reached.len() {
            let bit = self.reached[done].bit;
            if forbidden[bit.0 as usize].is_some() {
                return Ok(Some(bit));
            }
            self.follow(seen, implications, bit)?;
            done += 1;
        }
        Ok(None)
    }

    /// The place of the bit from which this clause implies the one it makes true; none where it forces it.
    pub fn source(&self, seen: &[Form], clause: u32) -> Option<u32>
        requires within { clause < length seen.now }
        requires below { AllBelow (length self.now.place.items) seen.now }
        ensures implies { (a b : Bit) → slice_get seen.now clause ≡ Some (Imply a b) → result ≡ entry self.now.place.items a.0 }
        ensures forces { (b : Bit) → slice_get seen.now clause ≡ Some (Force b) → result ≡ None }
    {
        match seen[clause as usize] {
            Form::Imply(from, _) => self.place[from.0 as usize],
            _ => None,
        }
    }

    /// The clauses from a forced bit by implications to this one, and then the clause that forbids it.
    pub fn path(
        &self,
        alloc: Global,
        seen: &[Form],
        bit: Bit,
        forbidding: u32,
    ) -> Result<Items<u32>, NoMemory>
        requires reach { IsReach seen.now self.now.place.items self.now.reached.items }
        requires below { AllBelow (length self.now.place.items) seen.now }
        requires on { IsOn self.now.place.items bit }
        requires forbids { slice_get seen.now forbidding ≡ Some (Forbid bit) }
        ensures { IfOk result (λ path. IsPath seen.now path) }
    {
        let mut path = Vec::new(alloc);
        path.push(forbidding)?;
        let mut at = self.place[bit.0 as usize];
        while let Some(place) = at {
            let clause = self.reached[place as usize].clause;
            path.push(clause)?;
            at = self.source(seen, clause);
        }
        path.reverse();
        Ok(Items::from_vec(path))
    }

    /// The table that has the bits that were reached.
    pub fn table(&self, alloc: Global) -> Result<Vec<bool>, NoMemory>
        ensures { IfOk result (λ t. t.items ≡ map is_some self.now.place.items) }
    {
        Ok(
            self.place
                .iter()
                .map(|place| place.is_some())
                .collect(alloc)?,
        )
    }
}
