//! The names that an expression uses and does not bind.
ghost use Rattle.std.specs.Prelude.{◌≡◌, ◌+◌, ◌-◌, ◌<◌, ◌^◌, IfOk, OnOk, nat_eq};
ghost use Rattle.std.specs.List.{list_any, range_with_len};
ghost use Rattle.ml_tree.specs.Nodes.{expr_nodes};
ghost use Rattle.ml_numbers.specs.Ids.{expr_ids};
ghost use Rattle.ml_scope.specs.FreeNames.{target_at, with_free, free_names};

use indexmap::IndexSet;
use ml_tree::{Expr, Ref, Scoped, nodes};
use oxml_base::{Items, NoMemory};
use std::alloc::Global;

/// What a node names.
#[tactic(auto, using(crate::proofs::Targets::found_at, crate::proofs::Targets::none_at))]
fn target_at(s: &Scoped, node: u32) -> Option<Ref>
    ensures { result ≡ target_at s.now.refs node }
{
    match s.target(node) {
        None => None,
        Some(target) => Some(target),
    }
}

/// Whether a number is one of those from `low` up to but not including `high`.
#[tactic(auto, using(crate::proofs::Targets::among))]
fn is_among(low: u32, high: u32, number: u32) -> bool
    ensures { result ≡ list_any (nat_eq number) (range_with_len low (high - low)) }
{
    low <= number && number < high
}

/// One name more, if it is a local name whose binder has none of the numbers from `low` up to but
/// not including `high`.
fn with_free(
    low: u32,
    high: u32,
    target: Option<Ref>,
    names: &mut IndexSet<u32>,
) -> Result<(), NoMemory>
    ensures { OnOk result (names.new.keys ≡ with_free (range_with_len low (high - low)) target names.old.keys) }
{
    match target {
        Some(Ref::Local(binder)) => {
            if !is_among(low, high, binder) {
                names.insert_full(binder)?;
            }
            Ok(())
        }
        _ => Ok(()),
    }
}

/// The local names that the nodes from `low` up to but not including `high` use and that are bound
/// at none of them.
#[tactic(auto, using(crate::proofs::Targets::free_step, crate::proofs::Targets::free_end))]
fn free_between(alloc: Global, s: &Scoped, low: u32, high: u32) -> Result<Items<u32>, NoMemory>
    ensures { IfOk result (λ names. names ≡ free_names s.now.refs (range_with_len low (high - low))) }
{
    let mut names = IndexSet::new(alloc);
    for node in low..high {
        with_free(low, high, target_at(s, node), &mut names)?;
    }
    Ok(Items::from_slice(alloc, names.as_slice())?)
}

/// The local names that `e` uses and that are bound outside it, by the numbers of their binders,
/// each once, in the order of first use. The nodes of `e` are numbered in the order of the source,
/// as those of each part of a numbered program are.
#[tactic(auto, using(crate::proofs::Targets::nodes_between))]
pub fn free_names(alloc: Global, s: &Scoped, e: &Expr) -> Result<Items<u32>, NoMemory>
    requires below { e.now.id + expr_nodes e.now < 2 ^ 32 }
    requires in_order { (expr_ids e.now).nodes ≡ range_with_len e.now.id (expr_nodes e.now) }
    ensures { IfOk result (λ names. names ≡ free_names s.now.refs (expr_ids e.now).nodes) }
{
    free_between(alloc, s, e.id, e.id + nodes(e))
}
