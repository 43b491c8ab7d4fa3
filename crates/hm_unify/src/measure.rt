//! The sizes of closed classes, and whether one is a part of itself.
ghost use Rattle.std.specs.Prelude.{◌≡◌, ℕ, ◌<◌, [], length, slice_get, IfOk, IfSome, None, min, ◌+◌};
ghost use Rattle.hm_unify.specs.Solutions.{Pairs};
ghost use Rattle.hm_unify.specs.States.{IsTabled};
ghost use Rattle.hm_unify.specs.Closing.{class_of, IsClosure, SomeClosure, IsBuiltRoot};
ghost use Rattle.hm_unify.specs.Shapes.{mark_at, FramesWithin, IsSearching, IsMarked, Advances, Finds, FindsRoot};

use crate::classes::{Classes, End};
use crate::closure::end;
use crate::node::{node, part};
use ml_types::{TyId, TyNode};
use oxml_base::NoMemory;
use std::alloc::Global;
use std::collections::HashMap;

/// A class whose parts are being measured, or the number of its nodes as a tree, up to 2,001.
#[derive(Clone, Copy, Debug, PartialEq, Eq)]
pub enum Mark {
    Open,
    Done(u64),
}

/// The marks of classes, by the ids of their roots.
#[derive(Drop)]
pub struct Marks {
    pub table: HashMap<u32, Mark>,
}

impl Marks {
    pub fn new(alloc: Global) -> Marks
        ensures { (r : ℕ) → mark_at result r ≡ None }
    {
        Marks {
            table: HashMap::new(alloc),
        }
    }
}

/// A node whose parts before `next` are measured; their sizes, together, up to 2,000.
#[derive(Clone, Copy, Debug)]
pub struct Frame {
    pub node: u32,
    pub next: usize,
    pub size: u64,
}

/// What one step of a search found.
#[derive(Clone, Copy, Debug)]
pub enum Step {
    /// There is more to do.
    Goes,
    /// The size of the class at which the search began.
    Measured(u64),
    /// A class that is a part of itself.
    Cycle,
}

/// A frame behind its next part, whose size is given.
fn past(frame: Frame, size: u64) -> Option<Frame>
    ensures node { IfSome result (λ g. g.node ≡ frame.node) }
    ensures next { IfSome result (λ g. g.next ≡ frame.next + 1) }
    ensures size { IfSome result (λ g. g.size ≡ min (min frame.size 2000 + min size 2001) 2000) }
{
    Some(Frame {
        node: frame.node,
        next: frame.next.checked_add(1)?,
        size: (frame.size.min(2000) + size.min(2001)).min(2000),
    })
}

/// One step of a search, at the top of the stack.
fn advance(
    nodes: &[TyNode],
    bound: &[Option<TyId>],
    classes: &Classes,
    marks: &mut Marks,
    stack: &mut Vec<Frame>,
) -> Result<Step, NoMemory>
    requires tabled { IsTabled nodes.now bound.now }
    requires closure { SomeClosure nodes.now bound.now classes.now [] }
    requires frames { FramesWithin (length nodes.now) stack.old.items }
    ensures frames { IfOk result (λ _. FramesWithin (length nodes.now) stack.new.items) }
    ensures goes { IfOk result (λ s. (pairs seen : Pairs) (k : IsClosure nodes.now bound.now pairs classes.now [] seen) (top : ℕ) → IsSearching nodes.now (class_of nodes.now bound.now k.root_of) marks.old stack.old.items top → Advances nodes.now bound.now pairs (class_of nodes.now bound.now k.root_of) marks.new stack.new.items top s) }
{
    // The stack is not empty.
    let Some(frame) = stack.pop() else {
        return Err(NoMemory)
    };
    let Some(part) = part(node(nodes, TyId(frame.node)), frame.next) else {
        let size = frame.size.min(2000) + 1;
        marks.table.insert(frame.node, Mark::Done(size))?;
        if stack.is_empty() {
            return Ok(Step::Measured(size));
        }
        return Ok(Step::Goes);
    };
    let class = classes.root(end(nodes, bound, part))?;
    match class {
        End::Free(_) => {
            let Some(further) = past(frame, 1) else {
                return Err(NoMemory)
            };
            stack.push(further)?;
            Ok(Step::Goes)
        }
        End::Built(inner) => match marks.table.get(&inner).copied() {
            Some(Mark::Done(size)) => {
                let Some(further) = past(frame, size) else {
                    return Err(NoMemory)
                };
                stack.push(further)?;
                Ok(Step::Goes)
            }
            Some(Mark::Open) => Ok(Step::Cycle),
            None => {
                marks.table.insert(inner, Mark::Open)?;
                stack.push(frame)?;
                stack.push(Frame {
                    node: inner,
                    next: 0,
                    size: 0,
                })?;
                Ok(Step::Goes)
            }
        },
    }
}

/// Measures the class of a root, with a stack of its own, since types can be as deep as the table is
/// long. `None` where a class is a part of itself.
fn search(
    alloc: Global,
    nodes: &[TyNode],
    bound: &[Option<TyId>],
    classes: &Classes,
    marks: &mut Marks,
    top: u32,
) -> Result<Option<u64>, NoMemory>
    requires tabled { IsTabled nodes.now bound.now }
    requires closure { SomeClosure nodes.now bound.now classes.now [] }
    requires within { top < length nodes.now }
    ensures { IfOk result (λ size. (pairs seen : Pairs) (k : IsClosure nodes.now bound.now pairs classes.now [] seen) → IsBuiltRoot nodes.now (class_of nodes.now bound.now k.root_of) top → IsMarked nodes.now (class_of nodes.now bound.now k.root_of) marks.old [] → FindsRoot nodes.now bound.now pairs (class_of nodes.now bound.now k.root_of) top marks.new size) }
{
    let mut stack = Vec::new(alloc);
    marks.table.insert(top, Mark::Open)?;
    stack.push(Frame {
        node: top,
        next: 0,
        size: 0,
    })?;
    for _step in 0..u64::MAX {
        match advance(nodes, bound, classes, marks, &mut stack)? {
            Step::Goes => {}
            Step::Measured(size) => return Ok(Some(size)),
            Step::Cycle => return Ok(None),
        }
    }
    // No search has so many steps.
    Err(NoMemory)
}

/// The number of nodes of an id's class as a tree, up to 2,001; `None` where a class is a part of
/// itself.
pub fn measure(
    alloc: Global,
    nodes: &[TyNode],
    bound: &[Option<TyId>],
    classes: &Classes,
    marks: &mut Marks,
    id: TyId,
) -> Result<Option<u64>, NoMemory>
    requires tabled { IsTabled nodes.now bound.now }
    requires closure { SomeClosure nodes.now bound.now classes.now [] }
    requires within { id.0 < length nodes.now }
    ensures { IfOk result (λ size. (pairs seen : Pairs) (k : IsClosure nodes.now bound.now pairs classes.now [] seen) → IsMarked nodes.now (class_of nodes.now bound.now k.root_of) marks.old [] → Finds nodes.now bound.now pairs (class_of nodes.now bound.now k.root_of) id marks.new size) }
{
    let class = classes.root(end(nodes, bound, id))?;
    let End::Built(top) = class else {
        return Ok(Some(1))
    };
    match marks.table.get(&top).copied() {
        Some(Mark::Done(size)) => Ok(Some(size)),
        // No class is open between two searches.
        Some(Mark::Open) => Err(NoMemory),
        None => {
            let found = search(alloc, nodes, bound, classes, marks, top)?;
            Ok(found)
        }
    }
}
