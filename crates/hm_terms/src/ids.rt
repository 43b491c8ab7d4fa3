//! The types that unknowns have so far.
ghost use Rattle.std.specs.Prelude.{◌≡◌, Some, OnOk};
ghost use Rattle.ml_typing.specs.declared.equation.Unknown.{Unknown as UnknownValue};
ghost use Rattle.hm_terms.specs.Stores.{id_of};

use ml_types::TyId;
use ml_typing::Unknown;
use oxml_base::NoMemory;
use std::alloc::Global;
use std::collections::HashMap;

/// A type for each unknown that has come up.
#[derive(Drop)]
pub struct Ids {
    nodes: HashMap<u32, TyId>,
    binders: HashMap<u32, TyId>,
    fresh: HashMap<(u32, u32), TyId>,
}

impl Ids {
    /// No unknown has come up.
    pub fn new(alloc: Global) -> Ids
        ensures { (u : UnknownValue) → id_of result u ≡ None }
    {
        Ids {
            nodes: HashMap::new(alloc),
            binders: HashMap::new(alloc),
            fresh: HashMap::new(alloc),
        }
    }

    /// The type of an unknown; `None` where it has not come up.
    pub fn find(&self, unknown: Unknown) -> Option<TyId>
        ensures { result ≡ id_of self.now unknown }
    {
        match unknown {
            Unknown::Node(node) => self.nodes.get(&node).copied(),
            Unknown::Binder(binder) => self.binders.get(&binder).copied(),
            Unknown::Fresh(node, number) => self.fresh.get(&(node, number)).copied(),
        }
    }

    /// From now on the unknown has this type.
    pub fn insert(&mut self, unknown: Unknown, id: TyId) -> Result<(), NoMemory>
        ensures there { OnOk result (id_of self.new unknown ≡ Some id) }
        ensures others { OnOk result ((u : UnknownValue) → (u ≡ unknown → ⊥) → id_of self.new u ≡ id_of self.old u) }
    {
        match unknown {
            Unknown::Node(node) => {
                self.nodes.insert(node, id)?;
                Ok(())
            }
            Unknown::Binder(binder) => {
                self.binders.insert(binder, id)?;
                Ok(())
            }
            Unknown::Fresh(node, number) => {
                self.fresh.insert((node, number), id)?;
                Ok(())
            }
        }
    }
}
