ghost use Rattle.std.specs.Prelude.{◌≡◌, ◌++◌, ◌==◌, ℕ, List, [], ◌∷◌, IfOk, OnOk};
ghost use Rattle.std.specs.List.{list_any};
ghost use Rattle.ml_meaning.specs.Captures.{free};
ghost use Rattle.ml_meaning.specs.Functions.{at_most_one};
ghost use Rattle.ml_functions.specs.Taken.{Adds, Fresh, Takes};

use oxml_base::NoMemory;
use std::alloc::Global;

/// The names that are taken, by a mark for each node number. A name is taken where its mark is that
/// of this round, so that a new round begins with none.
#[derive(Drop)]
pub struct Marks {
    marks: Vec<u32>,
    round: u32,
}

impl Marks {
    /// No name is taken, of as many nodes.
    pub fn new(alloc: Global, nodes: usize) -> Result<Marks, NoMemory>
        ensures { IfOk result (λ marks. Fresh marks) }
    {
        let mut marks = Vec::new(alloc);
        marks.resize(nodes, 0)?;
        Ok(Marks { marks, round: 0 })
    }

    /// A new round, in which no name is taken. `NoMemory` after 2^32 - 1 rounds.
    #[tactic(auto, using(crate::proofs::Taking::none_taken, crate::proofs::Taking::later))]
    pub fn begin(&mut self) -> Result<(), NoMemory>
        requires { Fresh self.old }
        ensures fresh { OnOk result (Fresh self.new) }
        ensures none { OnOk result (Takes self.new []) }
    {
        if self.round == u32::MAX {
            return Err(NoMemory);
        }
        self.round += 1;
        Ok(())
    }

    /// Whether a name is taken. `NoMemory` for what is no node.
    #[tactic(auto, using(crate::proofs::Taking::has_is))]
    fn has(&self, name: u32) -> Result<bool, NoMemory>
        ensures { IfOk result (λ has. (taken : List ℕ) → Takes self.now taken → has ≡ list_any (λ m. m == name) taken) }
    {
        match self.marks.as_slice().get(name as usize) {
            Some(mark) => Ok(*mark == self.round),
            None => Err(NoMemory),
        }
    }

    /// One more name is taken. `NoMemory` for what is no node.
    #[tactic(auto, using(crate::proofs::Taking::one_more, crate::proofs::Taking::stays))]
    fn take(&mut self, name: u32) -> Result<(), NoMemory>
        requires { Fresh self.old }
        ensures fresh { OnOk result (Fresh self.new) }
        ensures taken { OnOk result ((taken : List ℕ) → Takes self.old taken → Takes self.new (name ∷ taken)) }
    {
        let at = name as usize;
        if at >= self.marks.len() {
            return Err(NoMemory);
        }
        self.marks[at] = self.round;
        Ok(())
    }

    /// Each of the names is taken.
    #[tactic(auto, using(crate::proofs::Taking::all_start, crate::proofs::Taking::all_step, crate::proofs::Taking::all_end))]
    fn take_all(&mut self, names: &[u32]) -> Result<(), NoMemory>
        requires { Fresh self.old }
        ensures fresh { OnOk result (Fresh self.new) }
        ensures taken { OnOk result ((taken : List ℕ) → Takes self.old taken → Takes self.new (names.now ++ taken)) }
    {
        let mut left = names.len();
        while left > 0 {
            left -= 1;
            self.take(names[left])?;
        }
        Ok(())
    }

    /// The name is taken, where it is there.
    fn take_own(&mut self, own: Option<u32>) -> Result<(), NoMemory>
        requires { Fresh self.old }
        ensures fresh { OnOk result (Fresh self.new) }
        ensures taken { OnOk result ((taken : List ℕ) → Takes self.old taken → Takes self.new (at_most_one own ++ taken)) }
    {
        match own {
            Some(name) => self.take(name),
            None => Ok(()),
        }
    }

    /// The name is put behind the others and taken, where it is not taken yet.
    #[tactic(auto, using(crate::proofs::Taking::add_taken, crate::proofs::Taking::add_free))]
    fn add(&mut self, name: u32, found: &mut Vec<u32>) -> Result<(), NoMemory>
        requires { Fresh self.old }
        ensures fresh { OnOk result (Fresh self.new) }
        ensures added { OnOk result (Adds self.old self.new name found.old.items found.new.items) }
    {
        if self.has(name)? {
            return Ok(());
        }
        self.take(name)?;
        found.push(name)?;
        Ok(())
    }

    /// The names that are not taken, each once, in their order.
    #[tactic(auto, using(crate::proofs::Taking::free_start, crate::proofs::Taking::free_step, crate::proofs::Taking::free_end))]
    fn free(&mut self, alloc: Global, names: &[u32]) -> Result<Vec<u32>, NoMemory>
        requires { Fresh self.old }
        ensures fresh { OnOk result (Fresh self.new) }
        ensures free { IfOk result (λ list. (taken : List ℕ) → Takes self.old taken → list.items ≡ free taken names.now) }
    {
        let mut found = Vec::new(alloc);
        for name in names {
            self.add(*name, &mut found)?;
        }
        Ok(found)
    }

    /// The names that are used and not bound, each once, in the order of first use; a function's own
    /// name is bound.
    #[tactic(auto, using(crate::proofs::Taking::captured))]
    pub fn captures(
        &mut self,
        alloc: Global,
        own: Option<u32>,
        binders: &[u32],
        uses: &[u32],
    ) -> Result<Vec<u32>, NoMemory>
        requires { Fresh self.old }
        ensures fresh { OnOk result (Fresh self.new) }
        ensures captures { IfOk result (λ list. list.items ≡ free (at_most_one own ++ binders.now) uses.now) }
    {
        self.begin()?;
        self.take_all(binders)?;
        self.take_own(own)?;
        self.free(alloc, uses)
    }
}
