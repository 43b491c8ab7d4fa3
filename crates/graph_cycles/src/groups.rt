//! The nodes of a walk that are still open, in groups whose nodes lead to each other.
ghost use Rattle.std.specs.Prelude.{◌≡◌, ◌-◌, [], ◌∷◌, ◌++◌, length, take, slice_get, Some, IsTrue, IfOk, OnOk};
ghost use Rattle.graph_cycles.specs.Groups.{Rise, NoneBehind, IsInLast, IsLastBegin, IsMerged};

use oxml_base::NoMemory;
use std::alloc::Global;

/// Nodes in the order in which they were met, each of which leads to those behind it.
#[derive(Drop)]
pub struct Groups {
    pub nodes: Vec<u32>,
    /// Where the groups begin in `nodes`.
    pub begins: Vec<usize>,
}

impl Groups {
    /// No node is open.
    pub fn new(alloc: Global) -> Groups
        ensures nodes { result.nodes.items ≡ [] }
        ensures begins { result.begins.items ≡ [] }
    {
        Groups {
            nodes: Vec::new(alloc),
            begins: Vec::new(alloc),
        }
    }

    /// Whether the node stands at this place.
    pub fn stands(&self, node: u32, place: usize) -> bool
        ensures { IsTrue result → slice_get self.now.nodes.items place ≡ Some node }
    {
        place < self.nodes.len() && self.nodes[place] == node
    }

    /// Whether the node stands at this place, in the last group.
    pub fn is_in_last(&self, node: u32, place: usize) -> bool
        ensures { IsTrue result → Rise self.now.begins.items → IsInLast self.now.nodes.items self.now.begins.items node place }
    {
        self.stands(node, place) && self.last_begin() <= place
    }

    /// Where the last group begins; 0 where there is none.
    pub fn last_begin(&self) -> usize
        ensures last { Rise self.now.begins.items → NoneBehind self.now.begins.items result }
        ensures is { IsLastBegin self.now.begins.items result }
    {
        if self.begins.is_empty() {
            0
        } else {
            self.begins[self.begins.len() - 1]
        }
    }

    /// A node that is met becomes a group of its own. Its place is the answer.
    pub fn enter(&mut self, node: u32) -> Result<usize, NoMemory>
        ensures nodes { OnOk result (self.new.nodes.items ≡ self.old.nodes.items ++ node ∷ []) }
        ensures begins { OnOk result (self.new.begins.items ≡ self.old.begins.items ++ length self.old.nodes.items ∷ []) }
    {
        let place = self.nodes.len();
        self.nodes.push(node)?;
        self.begins.push(place)?;
        Ok(place)
    }

    /// The last groups become one with that of the node at this place, to which the last group leads.
    #[tactic(auto, using(crate::proofs::Grouped::merged_pop, crate::proofs::Grouped::merged_none))]
    pub fn merge(&mut self, place: usize)
        ensures nodes { self.new.nodes.items ≡ self.old.nodes.items }
        ensures begins { IsMerged self.old.begins.items self.new.begins.items place }
    {
        let count = self.begins.len();
        for _ in 0..count {
            let begin = self.last_begin();
            if begin <= place {
                return;
            }
            let _begin = self.begins.pop();
        }
    }

    /// The last group, which begins at this place, is complete, and its nodes are let go.
    pub fn close(&mut self, begin: usize)
        ensures nodes { self.new.nodes.items ≡ take begin self.old.nodes.items }
        ensures begins { self.new.begins.items ≡ take (length self.old.begins.items - 1) self.old.begins.items }
    {
        let _begin = self.begins.pop();
        self.nodes.truncate(begin);
    }
}
