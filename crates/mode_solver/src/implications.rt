ghost use Rattle.std.specs.Prelude.{◌≡◌, ℕ, ◌<◌, ◌^◌, [], ◌∷◌, ◌++◌, length, None, Some, slice_set, IfOk, OnOk, replicate};
ghost use Rattle.mode_solver.specs.Graph.{entry};

use mode_lattice::Bit;
use oxml_base::NoMemory;
use std::alloc::Global;

/// The implications among the clauses so far, by the bit that they start from: a list of clauses for
/// each bit, the last one first.
#[derive(Drop)]
pub struct Implications {
    /// The last implication from each bit.
    pub first: Vec<Option<u32>>,
    /// For each clause that is an implication, the one before it from the same bit.
    pub next: Vec<Option<u32>>,
}

impl Implications {
    pub fn new(alloc: Global, bits: u32) -> Result<Implications, NoMemory>
        ensures first { IfOk result (λ s. s.first.items ≡ replicate bits None) }
        ensures next { IfOk result (λ s. s.next.items ≡ []) }
    {
        Ok(Implications {
            first: nothing(alloc, bits)?,
            next: Vec::new(alloc),
        })
    }

    /// Takes the next clause, an implication from this bit.
    pub fn add(&mut self, from: Bit, clause: u32) -> Result<(), NoMemory>
        requires within { from.0 < length self.old.first.items }
        ensures first { OnOk result (self.new.first.items ≡ slice_set self.old.first.items from.0 (Some clause)) }
        ensures next { OnOk result (self.new.next.items ≡ self.old.next.items ++ entry self.old.first.items from.0 ∷ []) }
    {
        let before = self.first[from.0 as usize];
        self.next.push(before)?;
        self.first[from.0 as usize] = Some(clause);
        Ok(())
    }

    /// Takes the next clause, which is no implication.
    pub fn skip(&mut self) -> Result<(), NoMemory>
        ensures first { OnOk result (self.new.first.items ≡ self.old.first.items) }
        ensures next { OnOk result (self.new.next.items ≡ self.old.next.items ++ None ∷ []) }
    {
        self.next.push(None)?;
        Ok(())
    }
}

/// Nothing, for each of so many bits.
pub fn nothing(alloc: Global, bits: u32) -> Result<Vec<Option<u32>>, NoMemory>
    ensures { IfOk result (λ v. v.items ≡ replicate bits None) }
{
    let mut list = Vec::with_capacity(alloc, bits as usize)?;
    for _ in 0..bits {
        list.push(None)?;
    }
    Ok(list)
}
