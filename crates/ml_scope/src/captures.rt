//! The captures of functions.
ghost use Rattle.std.specs.Prelude.{◌≡◌, ◌<◌, ◌≤◌, ◌∷◌, [], None, true, false, drop, IfOk, OnOk, length, reverse};
ghost use Rattle.ml_scope.specs.CaptureWalk.{outward, step, walked};

use crate::found::Found;
use indexmap::IndexSet;
use ml_tree::Ref;
use oxml_base::{Items, NoMemory};
use std::alloc::Global;
use std::marker::Model;

/// The greatest number of captures that all functions of a program may have together.
pub const MOST_CAPTURES: usize = 100_000;

/// The functions around a place of a program, and what functions capture up to there.
#[derive(Drop)]
struct Capturing {
    /// The numbers of the functions, the innermost last. Names below the number of a function are
    /// bound outside it.
    around: Items<u32>,
    /// The recursive binder that names the function that begins next.
    itself: Option<u32>,
    /// Each function with each local name that it captures.
    captures: IndexSet<(u32, u32)>,
}

impl Model for Capturing {
    ghost use Rattle.std.specs.Prelude.{reverse};
    ghost use Rattle.ml_scope.specs.Captures.{Captured};

    ghost Value = { Captured };

    ghost view = { λ c. record { around = reverse c.around; itself = c.itself; captures = c.captures.keys } };
}

/// A use of a local name: each function around it, from the innermost on, up to that in which the
/// binder stands, captures the name. Where one has captured it before, so have those around it.
#[tactic(auto, using(crate::proofs::Around::outward_step, crate::proofs::Around::outward_none))]
fn use_name(
    around: &[u32],
    binder: u32,
    captures: &mut IndexSet<(u32, u32)>,
) -> Result<(), NoMemory>
    ensures { OnOk result (captures.new.keys ≡ outward (reverse around.now) binder captures.old.keys) }
{
    let mut at = around.len();
    while at > 0 {
        at -= 1;
        let function = around[at];
        if function <= binder {
            return Ok(());
        }
        let (_, added) = captures.insert_full((function, binder))?;
        if !added {
            return Ok(());
        }
    }
    Ok(())
}

/// A function begins.
#[tactic(auto, using(crate::proofs::Around::opened))]
fn open(around: &mut Items<u32>, number: u32) -> Result<(), NoMemory>
    ensures { OnOk result (reverse around.new ≡ number ∷ reverse around.old) }
{
    around.push(number)?;
    Ok(())
}

/// The innermost function ends.
#[tactic(auto, using(crate::proofs::Around::closed))]
fn close(around: &mut Items<u32>)
    ensures { reverse around.new ≡ drop 1 (reverse around.old) }
{
    match around.pop() {
        None => {}
        Some(_) => {}
    }
}

impl Capturing {
    fn new(alloc: Global) -> Capturing
        ensures { result ≡ record { around = []; itself = None; captures = [] } }
    {
        Capturing {
            around: Items::new(alloc),
            itself: None,
            captures: IndexSet::new(alloc),
        }
    }

    /// Whether there are more captures than a program may have.
    fn is_past_limit(&self) -> bool
        ensures many { result ≡ true → 100000 < length self.now.captures }
        ensures few { result ≡ false → length self.now.captures ≤ 100000 }
    {
        self.captures.len() > MOST_CAPTURES
    }

    fn note(&mut self, found: Found) -> Result<(), NoMemory>
        ensures { OnOk result (self.new ≡ step found self.old) }
    {
        match found {
            Found::Itself(node) => {
                self.itself = Some(node);
                Ok(())
            }
            Found::Opens(node) => {
                open(&mut self.around, self.itself.unwrap_or(node))?;
                self.itself = None;
                Ok(())
            }
            Found::Closes => {
                close(&mut self.around);
                Ok(())
            }
            Found::Names(_, Ref::Local(binder)) => {
                use_name(self.around.as_slice(), binder, &mut self.captures)
            }
            _ => Ok(()),
        }
    }
}

/// Whether the functions of a program have more captures together than they may.
#[tactic(auto, using(crate::proofs::Around::many_so_far, crate::proofs::Around::few_at_end))]
pub fn too_many_captures(alloc: Global, journal: &[Found]) -> Result<bool, NoMemory>
    ensures many { IfOk result (λ many. many ≡ true → 100000 < length (walked journal.now)) }
    ensures few { IfOk result (λ many. many ≡ false → length (walked journal.now) ≤ 100000) }
{
    let mut capturing = Capturing::new(alloc);
    for found in journal {
        if capturing.is_past_limit() {
            return Ok(true);
        }
        capturing.note(*found)?;
    }
    Ok(capturing.is_past_limit())
}
