ghost use Rattle.std.specs.Prelude.{◌≡◌, ℕ, ◌<◌, ◌^◌, length, min, IfOk, IfErr, OnOk, OnErr, None, Some, slice_index_or};
ghost use Rattle.ml_types.specs.Types.{Tree, tree_size, parts_of};
ghost use Rattle.hm_unify.specs.Solutions.{Stands};
ghost use Rattle.hm_unify.specs.States.{State, IsTable, IsNew, IsUnchanged, Adds, AddsFresh, PartsWithin, IsHead, IsTableOf, Equated, Refused, IsTabled, IsSound};
ghost use Rattle.hm_unify.specs.Closing.{PairsWithin};

use crate::bound::end_of;
use crate::error::UnifyErr;
use crate::node::node;
use crate::refusal::refusal;
use crate::tables::{cover, covering, heads, size_within};
use crate::walk::walk_pairs;
use ml_types::{TyId, TyNode, TyTable};
use oxml_base::{Items, NoMemory};
use std::alloc::Global;
use std::marker::Model;

/// Types with variables, and what these are bound to.
#[derive(Drop)]
pub struct Bindings {
    alloc: Global,
    nodes: Items<TyNode>,
    bound: Vec<Option<TyId>>,
}

impl Model for Bindings {
    ghost use Rattle.hm_unify.specs.States.{State, IsSound};

    ghost Value = { State };

    ghost view = { λ b. record { nodes = b.nodes; bound = b.bound.items } };

    ghost invariant = { λ b. IsSound b.nodes b.bound.items };
}

impl Bindings {
    /// Bindings over a table, in which no variable is bound. The ids of the table lie in it, and no
    /// id reaches itself.
    pub fn new(alloc: Global, t: TyTable) -> Result<Bindings, NoMemory>
        requires { IsTable t.nodes }
        ensures { IfOk result (λ b. IsNew t.nodes b) }
    {
        let TyTable { nodes } = t;
        let bound = covering(alloc, nodes.as_slice())?;
        Ok(Bindings {
            alloc,
            nodes,
            bound,
        })
    }

    /// A variable that no node has yet, and that is not bound.
    pub fn fresh(&mut self) -> Result<TyId, NoMemory>
        ensures ok { IfOk result (λ id. AddsFresh self.old self.new id) }
        ensures err { OnErr result (IsUnchanged self.old self.new) }
    {
        let Ok(number) = u32::try_from(self.bound.len()) else {
            return Err(NoMemory)
        };
        let Ok(id) = u32::try_from(self.nodes.len()) else {
            return Err(NoMemory)
        };
        self.bound.push(None)?;
        self.nodes.push(TyNode::Var(number))?;
        Ok(TyId(id))
    }

    /// One node more, whose parts are ids of these bindings.
    pub fn add(&mut self, n: TyNode) -> Result<TyId, NoMemory>
        requires { PartsWithin (length self.old.nodes) n }
        ensures ok { IfOk result (λ id. Adds self.old self.new n id) }
        ensures err { OnErr result (IsUnchanged self.old self.new) }
    {
        let Ok(id) = u32::try_from(self.nodes.len()) else {
            return Err(NoMemory)
        };
        cover(&mut self.bound, &n)?;
        self.nodes.push(n)?;
        Ok(TyId(id))
    }

    /// Makes the two of each pair equal, pair by pair, each from the left: a variable that meets
    /// another node is bound to its id.
    pub fn equate(&mut self, pairs: &[(TyId, TyId)]) -> Result<(), UnifyErr>
        requires { PairsWithin (length self.old.nodes) pairs.now }
        ensures ok { OnOk result (Equated self.old self.new pairs.now) }
        ensures err { IfErr result (λ e. Refused self.old pairs.now e) }
        ensures same { OnErr result (self.new ≡ self.old) }
    {
        match refusal(
            self.alloc,
            self.nodes.as_slice(),
            self.bound.as_slice(),
            pairs,
        ) {
            Some(error) => Err(error),
            None => {
                walk_pairs(self.nodes.as_slice(), &mut self.bound, pairs);
                Ok(())
            }
        }
    }

    /// How many nodes the type of `a` has as a tree, counted up to 2,001.
    pub fn size(&self, a: TyId) -> u64
        requires { a.0 < length self.now.nodes }
        ensures { (t : Tree) → Stands self.now.nodes self.now.bound a t → result ≡ min (tree_size t) 2001 }
    {
        size_within(self.nodes.as_slice(), self.bound.as_slice(), a, 2001)
    }

    /// The node that stands for `a` under the bindings: a variable exactly where the bindings,
    /// followed from `a`, end at one that is not bound.
    pub fn head(&self, a: TyId) -> &TyNode
        requires { a.0 < length self.now.nodes }
        ensures { IsHead self.now a result.now }
    {
        let nodes = self.nodes.as_slice();
        node(nodes, end_of(nodes, self.bound.as_slice(), a))
    }

    /// The table in which every id has the node that stands for it, so that it stands for its type
    /// with no bindings.
    pub fn table(self) -> Result<TyTable, NoMemory>
        ensures { IfOk result (λ t. IsTableOf self t.nodes) }
    {
        let Bindings {
            alloc,
            nodes,
            bound,
        } = self;
        let nodes = heads(alloc, nodes.as_slice(), bound.as_slice())?;
        Ok(TyTable { nodes })
    }

    /// Says what holds of bindings at any time: their ids lie in the table, chains of bound variables
    /// end, and some finite types solve them. Does nothing.
    pub fn sound(&self)
        ensures { IsSound self.now.nodes self.now.bound }
    {
        shown(self.nodes.as_slice(), self.bound.as_slice())
    }
}

/// Shows what holds of the bindings in hand.
fn shown(nodes: &[TyNode], bound: &[Option<TyId>])
    requires { IsSound nodes.now bound.now }
    ensures { IsSound nodes.now bound.now }
{}
