//! Classes of types that equations force to be equal, as a forest of links between ends of bindings.
ghost use Rattle.std.specs.Prelude.{◌≡◌, ◌⊎◌, ℕ, Option, Some, None, IfOk, OnOk};
ghost use Rattle.hm_unify.specs.declared.classes.End.{End};
ghost use Rattle.hm_unify.specs.Classes.{up, IsForest, IsRoot, joined};

use oxml_base::NoMemory;
use std::alloc::Global;
use std::collections::HashMap;

/// What stands at the end of bindings: a free variable by its number, or another node by its id.
#[derive(Clone, Copy, Debug, PartialEq, Eq)]
pub enum End {
    Free(u32),
    Built(u32),
}

/// Each end that was linked to another of its class; the others are the roots, one for each class.
#[derive(Drop)]
pub struct Classes {
    pub free: HashMap<u32, End>,
    pub built: HashMap<u32, End>,
}

impl Classes {
    /// Every end is a class of its own.
    pub fn new(alloc: Global) -> Classes
        ensures { (e : End) → up result e ≡ None }
    {
        Classes {
            free: HashMap::new(alloc),
            built: HashMap::new(alloc),
        }
    }

    fn link(&self, end: End) -> Option<End>
        ensures { result ≡ up self.now end }
    {
        match end {
            End::Free(number) => self.free.get(&number).copied(),
            End::Built(id) => self.built.get(&id).copied(),
        }
    }

    /// The root of the class of an end.
    pub fn root(&self, end: End) -> Result<End, NoMemory>
        ensures root { IfOk result (λ r. IsRoot self.now r) }
        ensures named { IfOk result (λ r. (f : End → End) → IsForest self.now f → f end ≡ r) }
    {
        let mut at = end;
        for _step in 0..u64::MAX {
            match self.link(at) {
                None => return Ok(at),
                Some(next) => at = next,
            }
        }
        // No forest is so deep.
        Err(NoMemory)
    }

    /// Links one root to another.
    pub fn join(&mut self, from: End, to: End) -> Result<(), NoMemory>
        requires free_from { IsRoot self.old from }
        requires free_to { IsRoot self.old to }
        requires apart { from ≡ to → ⊥ }
        ensures forest { OnOk result ((f : End → End) → IsForest self.old f → IsForest self.new (joined f from to)) }
        ensures links { OnOk result ((e g : End) → up self.new e ≡ Some g → (e ≡ from) ⊎ (up self.old e ≡ Some g)) }
    {
        match from {
            End::Free(number) => self.free.insert(number, to)?,
            End::Built(id) => self.built.insert(id, to)?,
        };
        Ok(())
    }
}
