//! A walk over a graph along its edges, with a stack of its own.
ghost use Rattle.std.specs.Prelude.{◌≡◌, ◌<◌, ℕ, List, [], ◌∷◌, ◌++◌, length, slice_get, slice_set, Some, true, IsTrue, IfOk, OnOk, IfSome};
ghost use Rattle.graph_cycles.specs.Paths.{Edge};
ghost use Rattle.graph_cycles.specs.Groups.{Rise, NoneBehind, IsInLast, IsLastBegin, Sound, AllCyclic};
ghost use Rattle.graph_cycles.specs.Walks.{IsWalk};

use crate::groups::Groups;
use oxml_base::{Items, NoMemory};
use sqlite_items::at;
use std::alloc::Global;

/// A node on the way, and the place of the next of its edges.
#[derive(Clone, Copy, Debug, PartialEq, Eq)]
pub struct Frame {
    pub node: u32,
    pub next: usize,
}

/// How far a walk has come.
#[derive(Drop)]
pub struct Walk {
    alloc: Global,
    /// The nodes on the way here, the last the nearest.
    frames: Vec<Frame>,
    groups: Groups,
    /// One more than the place that each node had among the open ones when it was met; 0 for those
    /// that were not.
    places: Vec<usize>,
    /// How many groups were complete before that of each node.
    pub ranks: Vec<u32>,
    /// Which nodes are known to lead to themselves.
    pub cyclic: Vec<bool>,
    /// How many groups are complete.
    complete: u32,
}

/// The node to which the edge at this place leads.
fn successor(graph: &[Items<u32>], node: u32, place: usize) -> Option<u32>
    ensures { IfSome result (λ to. Edge graph.now node to) }
{
    match at(graph, node as usize) {
        Some(successors) => at(successors.as_slice(), place).copied(),
        None => None,
    }
}

/// No marks, for so many nodes.
fn unmarked(alloc: Global, count: usize) -> Result<Vec<bool>, NoMemory>
    ensures { IfOk result (λ marks. (v : ℕ) → slice_get marks.items v ≡ Some true → ⊥) }
{
    let mut marks = Vec::new(alloc);
    for _ in 0..count {
        marks.push(false)?;
    }
    Ok(marks)
}

fn no_ranks(alloc: Global, count: usize) -> Result<Vec<u32>, NoMemory> {
    let mut ranks = Vec::new(alloc);
    for _ in 0..count {
        ranks.push(0)?;
    }
    Ok(ranks)
}

fn no_places(alloc: Global, count: usize) -> Result<Vec<usize>, NoMemory> {
    let mut places = Vec::new(alloc);
    for _ in 0..count {
        places.push(0)?;
    }
    Ok(places)
}

/// Marks a node.
fn mark(cyclic: &mut Vec<bool>, node: u32)
    ensures { cyclic.new.items ≡ slice_set cyclic.old.items node true }
{
    if (node as usize) < cyclic.len() {
        cyclic[node as usize] = true;
    }
}

/// Marks all of these nodes.
fn mark_all(cyclic: &mut Vec<bool>, nodes: &[u32])
    ensures { (graph : List (List ℕ)) → Sound graph cyclic.old.items → AllCyclic graph nodes.now → Sound graph cyclic.new.items }
{
    for node in nodes {
        mark(cyclic, *node);
    }
}

/// Marks the nodes of a group where there are several, which lead to each other.
fn mark_group(cyclic: &mut Vec<bool>, nodes: &[u32])
    ensures { (graph : List (List ℕ)) → Sound graph cyclic.old.items → (1 < length nodes.now → AllCyclic graph nodes.now) → Sound graph cyclic.new.items }
{
    if nodes.len() > 1 {
        mark_all(cyclic, nodes);
    }
}

fn set_rank(ranks: &mut Vec<u32>, node: u32, rank: u32) {
    if (node as usize) < ranks.len() {
        ranks[node as usize] = rank;
    }
}

/// Gives these nodes a rank.
fn rank_all(ranks: &mut Vec<u32>, nodes: &[u32], rank: u32) {
    for node in nodes {
        set_rank(ranks, *node, rank);
    }
}

fn set_place(places: &mut Vec<usize>, node: u32, place: usize) {
    if (node as usize) < places.len() {
        places[node as usize] = place;
    }
}

impl Walk {
    pub fn new(alloc: Global, nodes: usize) -> Result<Walk, NoMemory>
        ensures { IfOk result (λ walk. (graph : List (List ℕ)) → Sound graph walk.cyclic.items) }
    {
        Ok(Walk {
            alloc,
            frames: Vec::new(alloc),
            groups: Groups::new(alloc),
            places: no_places(alloc, nodes)?,
            ranks: no_ranks(alloc, nodes)?,
            cyclic: unmarked(alloc, nodes)?,
            complete: 0,
        })
    }

    /// One more than the place that a node had when it was met, or 0.
    fn place(&self, node: u32) -> usize {
        if (node as usize) < self.places.len() {
            self.places[node as usize]
        } else {
            0
        }
    }

    /// A node is met for the first time.
    fn enter(&mut self, node: u32) -> Result<(), NoMemory>
        ensures nodes { OnOk result (self.new.groups.nodes.items ≡ self.old.groups.nodes.items ++ node ∷ []) }
        ensures begins { OnOk result (self.new.groups.begins.items ≡ self.old.groups.begins.items ++ length self.old.groups.nodes.items ∷ []) }
        ensures cyclic { OnOk result (self.new.cyclic.items ≡ self.old.cyclic.items) }
    {
        let place = self.groups.enter(node)?;
        let number = place.checked_add(1).ok_or(NoMemory)?;
        set_place(&mut self.places, node, number);
        self.frames.push(Frame { node, next: 0 })?;
        Ok(())
    }

    /// Whether a node is in the last group.
    fn is_in_last(&self, node: u32) -> bool
        ensures { IsTrue result → Rise self.now.groups.begins.items → (place : ℕ) × IsInLast self.now.groups.nodes.items self.now.groups.begins.items node place }
    {
        let number = self.place(node);
        number > 0 && self.groups.is_in_last(node, number - 1)
    }

    /// An edge leads from a node of the last group to one that was not met.
    fn go_on(&mut self, from: u32, to: u32) -> Result<(), NoMemory>
        ensures { OnOk result ((graph : List (List ℕ)) → Edge graph from to → IsWalk graph self.old → IsWalk graph self.new) }
    {
        if !self.is_in_last(from) {
            return Err(NoMemory);
        }
        self.enter(to)?;
        Ok(())
    }

    /// An edge leads from a node of the last group to one that was met. Where that one is open, its
    /// group and those behind it become one.
    fn meet_again(&mut self, from: u32, to: u32, number: usize) -> Result<(), NoMemory>
        requires { 0 < number }
        ensures { OnOk result ((graph : List (List ℕ)) → Edge graph from to → IsWalk graph self.old → IsWalk graph self.new) }
    {
        let place = number - 1;
        if !self.groups.stands(to, place) {
            return Ok(());
        }
        if !self.is_in_last(from) {
            return Err(NoMemory);
        }
        self.groups.merge(place);
        Ok(())
    }

    /// An edge from a node to itself puts it on a cycle.
    fn note_loop(&mut self, from: u32, to: u32)
        ensures { (graph : List (List ℕ)) → Edge graph from to → IsWalk graph self.old → IsWalk graph self.new }
    {
        if from == to {
            mark(&mut self.cyclic, to);
        }
    }

    /// An edge leads from one node to another.
    fn follow(&mut self, from: u32, to: u32) -> Result<(), NoMemory>
        ensures { OnOk result ((graph : List (List ℕ)) → Edge graph from to → IsWalk graph self.old → IsWalk graph self.new) }
    {
        self.note_loop(from, to);
        let number = self.place(to);
        if number == 0 {
            self.go_on(from, to)
        } else {
            self.meet_again(from, to, number)
        }
    }

    /// The last group, which begins at this place, is complete.
    fn complete_group(&mut self, begin: usize) -> Result<(), NoMemory>
        requires { begin < length self.old.groups.nodes.items }
        ensures { OnOk result ((graph : List (List ℕ)) → IsLastBegin self.old.groups.begins.items begin → NoneBehind self.old.groups.begins.items begin → IsWalk graph self.old → IsWalk graph self.new) }
    {
        let members = &self.groups.nodes[begin..];
        mark_group(&mut self.cyclic, members);
        rank_all(&mut self.ranks, members, self.complete);
        self.complete = self.complete.checked_add(1).ok_or(NoMemory)?;
        self.groups.close(begin);
        Ok(())
    }

    /// All edges of a node were followed. Where its group begins with it, the group is complete.
    fn leave(&mut self, node: u32) -> Result<(), NoMemory>
        ensures { OnOk result ((graph : List (List ℕ)) → IsWalk graph self.old → IsWalk graph self.new) }
    {
        let begin = self.groups.last_begin();
        if self.groups.stands(node, begin) {
            self.complete_group(begin)
        } else {
            Ok(())
        }
    }

    /// One step: follows the next edge of a node, or leaves it.
    fn step(&mut self, graph: &[Items<u32>], frame: Frame) -> Result<(), NoMemory>
        requires { IsWalk graph.now self.old }
        ensures { OnOk result (IsWalk graph.now self.new) }
    {
        match successor(graph, frame.node, frame.next) {
            None => self.leave(frame.node),
            Some(to) => {
                let next = frame.next.checked_add(1).ok_or(NoMemory)?;
                self.frames.push(Frame {
                    node: frame.node,
                    next,
                })?;
                if to as usize >= graph.len() {
                    return Ok(());
                }
                self.follow(frame.node, to)
            }
        }
    }

    /// Everything that a node leads to, where it was not met before, in at most so many steps.
    pub fn explore(&mut self, graph: &[Items<u32>], root: u32, most: usize) -> Result<(), NoMemory>
        requires { Sound graph.now self.old.cyclic.items }
        ensures { OnOk result (Sound graph.now self.new.cyclic.items) }
    {
        if self.place(root) > 0 {
            return Ok(());
        }
        self.groups = Groups::new(self.alloc);
        self.enter(root)?;
        for _ in 0..most {
            match self.frames.pop() {
                None => return Ok(()),
                Some(frame) => self.step(graph, frame)?,
            }
        }
        Ok(())
    }
}
