//! Bindings that know how many nodes they have, so that ids can be tested.
ghost use Rattle.std.specs.Prelude.{◌≡◌, ◌≤◌, length, min, OnOk, OnErr, IfErr, IfOk, IfSome, IsNone};
ghost use Rattle.ml_types.specs.Types.{Tree, tree_size};
ghost use Rattle.hm_unify.specs.Solutions.{Stands};
ghost use Rattle.hm_unify.specs.States.{IsTable, IsNew, IsHead, IsSound, IsTableOf, Adds, AddsFresh, PartsWithin, Equated, Refused};

use crate::nodes::{pairs_within, parts_within};
use hm_unify::{Bindings, UnifyErr};
use ml_types::{TyId, TyNode, TyTable};
use oxml_base::NoMemory;
use std::alloc::Global;

#[derive(Drop)]
pub struct Counted {
    bindings: Bindings,
    /// How many nodes the bindings have.
    count: u64,
    ghost counted: { count ≡ length bindings.nodes },
}

impl Counted {
    /// Bindings over a table.
    pub fn new(alloc: Global, table: TyTable) -> Result<Counted, NoMemory>
        requires { IsTable table.nodes }
        ensures { IfOk result (λ b. IsNew table.nodes b.bindings) }
    {
        let count = table.nodes.as_slice().len() as u64;
        let bindings = Bindings::new(alloc, table)?;
        Ok(Counted { bindings, count })
    }

    /// How many nodes there are.
    pub fn count(&self) -> u64
        ensures { result ≡ length self.now.bindings.nodes }
    {
        self.count
    }

    /// A variable that no node has yet.
    pub fn fresh(&mut self) -> Result<TyId, NoMemory>
        ensures { IfOk result (λ id. AddsFresh self.old.bindings self.new.bindings id) }
    {
        let id = self.bindings.fresh()?;
        self.count = id.0 as u64 + 1;
        Ok(id)
    }

    /// One node more, if its parts are ids of these bindings.
    pub fn add(&mut self, node: TyNode) -> Result<TyId, NoMemory>
        ensures adds { IfOk result (λ id. Adds self.old.bindings self.new.bindings node id) }
        ensures within { OnOk result (PartsWithin (length self.old.bindings.nodes) node) }
    {
        if !parts_within(&node, self.count) {
            return Err(NoMemory);
        }
        let id = self.bindings.add(node)?;
        self.count = id.0 as u64 + 1;
        Ok(id)
    }

    /// Makes the two of each pair equal.
    pub fn equate(&mut self, pairs: &[(TyId, TyId)]) -> Result<(), UnifyErr>
        ensures ok { OnOk result (Equated self.old.bindings self.new.bindings pairs.now) }
        ensures err { IfErr result (λ e. Refused self.old.bindings pairs.now e) }
        ensures same { OnErr result (self.new.bindings ≡ self.old.bindings) }
    {
        if !pairs_within(pairs, self.count) {
            return Err(UnifyErr::NoMemory);
        }
        self.bindings.equate(pairs)
    }

    /// The node that stands for an id; `None` where there is no such id.
    pub fn head(&self, id: TyId) -> Option<&TyNode>
        ensures some { IfSome result (λ n. IsHead self.now.bindings id n.now) }
        ensures none { IsNone result → length self.now.bindings.nodes ≤ id.0 }
    {
        if (id.0 as u64) < self.count {
            Some(self.bindings.head(id))
        } else {
            None
        }
    }

    /// Says what holds of bindings at any time. Does nothing.
    pub fn sound(&self)
        ensures { IsSound self.now.bindings.nodes self.now.bindings.bound }
    {
        self.bindings.sound()
    }

    /// How many nodes the type of an id has as a tree, counted up to 2,001; 0 where there is no such id.
    pub fn size(&self, id: TyId) -> u64
        ensures { (t : Tree) → Stands self.now.bindings.nodes self.now.bindings.bound id t → result ≡ min (tree_size t) 2001 }
    {
        if (id.0 as u64) < self.count {
            self.bindings.size(id)
        } else {
            0
        }
    }

    /// The table in which every id has the node that stands for it.
    pub fn table(self) -> Result<TyTable, NoMemory>
        ensures { IfOk result (λ t. IsTableOf self.bindings t.nodes) }
    {
        self.bindings.table()
    }
}
