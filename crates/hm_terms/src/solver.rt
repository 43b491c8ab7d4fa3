//! The solver of one item: its unknowns' types over the types of all items before it.
ghost use Rattle.std.specs.Prelude.{◌≡◌, ◌+◌, ◌≤◌, ℕ, length, min, None, [], OnOk, OnErr, IfErr, IfOk, IfSome, IsNone, nat_eq, slice_get};
ghost use Rattle.std.specs.HashMap.{get};
ghost use Rattle.ml_types.specs.Types.{Tree, tree_size};
ghost use Rattle.ml_types.specs.declared.node.TyNode.TheVariants.{Arrow, Tuple};
ghost use Rattle.ml_typing.specs.declared.equation.Unknown.{Unknown as UnknownValue};
ghost use Rattle.hm_unify.specs.Solutions.{Stands};
ghost use Rattle.hm_unify.specs.States.{IsTable, IsNew, IsHead, IsSound, IsTableOf, Equated, Refused};
ghost use Rattle.hm_terms.specs.Stores.{store, state, id_of, AddsNode, AddsOperation, Declares, Forgets, Generalises, Knows, SameNames};
ghost use Rattle.hm_terms.specs.Contexts.{op_place};

use crate::counted::Counted;
use crate::ids::Ids;
use hm_unify::UnifyErr;
use ml_tree::Op;
use ml_types::{TyId, TyNode, TyTable};
use ml_typing::Unknown;
use oxml_base::{Items, NoMemory};
use std::alloc::Global;
use std::collections::HashMap;

/// The types of one item's unknowns, over the types of all items before it.
#[derive(Drop)]
pub struct Solver {
    pub alloc: Global,
    table: Counted,
    /// How many nodes there were when the item began.
    mark: u64,
    /// The types of the item's unknowns.
    ids: Ids,
    /// The types of names of earlier items, by the numbers of their binders.
    schemes: HashMap<u32, TyId>,
    /// The types of the operations, in their order.
    operations: Vec<TyId>,
    /// The ids of declared types in which abbreviations are expanded, by their ids in the table of the
    /// declarations.
    declared: HashMap<u32, TyId>,
    /// The first slot that no arrow has.
    slots: u32,
}

impl Solver {
    /// A solver over the declared types, whose arrows have the slots below `slots`.
    pub fn new(alloc: Global, types: TyTable, slots: u32) -> Result<Solver, NoMemory>
        requires { IsTable types.nodes }
        ensures bindings { IfOk result (λ s. IsNew types.nodes (state (store s))) }
        ensures mark { IfOk result (λ s. s.mark ≡ length types.nodes) }
        ensures ids { IfOk result (λ s. (u : UnknownValue) → id_of s.ids u ≡ None) }
        ensures schemes { IfOk result (λ s. (b : ℕ) → get nat_eq s.schemes b ≡ None) }
        ensures operations { IfOk result (λ s. s.operations.items ≡ []) }
        ensures declared { IfOk result (λ s. (n : ℕ) → get nat_eq s.declared n ≡ None) }
        ensures slots { IfOk result (λ s. s.slots ≡ slots) }
    {
        let table = Counted::new(alloc, types)?;
        let mark = table.count();
        Ok(Solver {
            alloc,
            table,
            mark,
            ids: Ids::new(alloc),
            schemes: HashMap::new(alloc),
            operations: Vec::new(alloc),
            declared: HashMap::new(alloc),
            slots,
        })
    }

    /// How many nodes there are.
    pub fn count(&self) -> u64
        ensures { result ≡ length (store self.now).nodes }
    {
        self.table.count()
    }

    /// One node more, if its parts are ids of these bindings.
    pub fn add(&mut self, node: TyNode) -> Result<TyId, NoMemory>
        ensures adds { IfOk result (λ id. AddsNode (store self.old) (store self.new) node id) }
        ensures slots { self.new.slots ≡ self.old.slots }
    {
        self.table.add(node)
    }

    /// The empty product.
    pub fn nothing(&mut self) -> Result<TyId, NoMemory>
        ensures adds { IfOk result (λ id. AddsNode (store self.old) (store self.new) (Tuple []) id) }
        ensures slots { self.new.slots ≡ self.old.slots }
    {
        let none = Items::new(self.alloc);
        self.add(TyNode::Tuple(none))
    }

    /// Makes the two of each pair equal.
    pub fn equate(&mut self, pairs: &[(TyId, TyId)]) -> Result<(), UnifyErr>
        ensures ok { OnOk result (Equated (state (store self.old)) (state (store self.new)) pairs.now) }
        ensures err { IfErr result (λ e. Refused (state (store self.old)) pairs.now e) }
        ensures same { OnErr result (store self.new ≡ store self.old) }
        ensures ids { (u : UnknownValue) → id_of self.new.ids u ≡ id_of self.old.ids u }
        ensures names { SameNames (store self.old) (store self.new) }
        ensures slots { self.new.slots ≡ self.old.slots }
    {
        self.table.equate(pairs)
    }

    /// The node that stands for an id; `None` where there is no such id.
    pub fn head(&self, id: TyId) -> Option<&TyNode>
        ensures some { IfSome result (λ n. IsHead (state (store self.now)) id n.now) }
        ensures none { IsNone result → length (store self.now).nodes ≤ id.0 }
    {
        self.table.head(id)
    }

    /// The type of an unknown of the item, a new variable where it had none.
    pub fn unknown(&mut self, unknown: Unknown) -> Result<TyId, NoMemory>
        ensures knows { IfOk result (λ id. Knows (store self.old) (store self.new) unknown id) }
        ensures slots { self.new.slots ≡ self.old.slots }
    {
        if let Some(id) = self.ids.find(unknown) {
            return Ok(id);
        }
        let id = self.table.fresh()?;
        self.ids.insert(unknown, id)?;
        Ok(id)
    }

    /// The type of an unknown that has come up.
    pub fn known(&self, unknown: Unknown) -> Option<TyId>
        ensures { result ≡ id_of self.now.ids unknown }
    {
        self.ids.find(unknown)
    }

    /// The type of a name of an earlier item.
    pub fn scheme(&self, binder: u32) -> Option<TyId>
        ensures { result ≡ (store self.now).schemes binder }
    {
        self.schemes.get(&binder).copied()
    }

    /// The type of an operation.
    pub fn operation(&self, op: Op) -> Option<TyId>
        ensures { result ≡ slice_get self.now.operations.items (op_place op) }
    {
        self.operations.get(op as usize).copied()
    }

    /// An arrow with a slot of its own.
    pub fn arrow(&mut self, from: TyId, to: TyId) -> Result<TyId, NoMemory>
        ensures adds { IfOk result (λ id. AddsNode (store self.old) (store self.new) (Arrow self.old.slots from to) id) }
        ensures slot { OnOk result (self.new.slots ≡ self.old.slots + 1) }
    {
        let slot = self.slots;
        self.slots = slot.checked_add(1).ok_or(NoMemory)?;
        self.add(TyNode::Arrow { slot, from, to })
    }

    /// Says what holds of bindings at any time. Does nothing.
    pub fn sound(&self)
        ensures { IsSound (store self.now).nodes (store self.now).bound }
    {
        self.table.sound()
    }

    /// How many nodes the type of an id has as a tree, counted up to 2,001; 0 where there is no such id.
    pub fn size(&self, id: TyId) -> u64
        ensures { (t : Tree) → Stands (store self.now).nodes (store self.now).bound id t → result ≡ min (tree_size t) 2001 }
    {
        self.table.size(id)
    }

    /// From now on the name of an item has this type as its scheme.
    pub fn generalise(&mut self, binder: u32, id: TyId) -> Result<(), NoMemory>
        ensures generalises { OnOk result (Generalises (store self.old) (store self.new) binder id) }
        ensures slots { self.new.slots ≡ self.old.slots }
    {
        self.schemes.insert(binder, id)?;
        Ok(())
    }

    /// From now on the declared type has this id.
    pub fn declare(&mut self, ty: TyId, id: TyId) -> Result<(), NoMemory>
        ensures declares { OnOk result (Declares (store self.old) (store self.new) ty.0 id) }
        ensures slots { self.new.slots ≡ self.old.slots }
    {
        self.declared.insert(ty.0, id)?;
        Ok(())
    }

    /// The id of a declared type; `None` where it has none.
    pub fn declared(&self, ty: TyId) -> Option<TyId>
        ensures { result ≡ (store self.now).declared ty.0 }
    {
        self.declared.get(&ty.0).copied()
    }

    /// The next operation has this type.
    pub fn add_operation(&mut self, id: TyId) -> Result<(), NoMemory>
        ensures adds { OnOk result (AddsOperation (store self.old) (store self.new) id) }
        ensures slots { self.new.slots ≡ self.old.slots }
    {
        self.operations.push(id)?;
        Ok(())
    }

    /// Forgets the unknowns of the item: what there is now was there before the next item.
    pub fn next_item(&mut self)
        ensures forgets { Forgets (store self.old) (store self.new) }
        ensures slots { self.new.slots ≡ self.old.slots }
    {
        self.mark = self.table.count();
        self.ids = Ids::new(self.alloc);
    }

    /// The first slot that no arrow has.
    pub fn slots(&self) -> u32
        ensures { result ≡ self.now.slots }
    {
        self.slots
    }

    /// The table in which every id has the node that stands for it.
    pub fn table(self) -> Result<TyTable, NoMemory>
        ensures { IfOk result (λ t. IsTableOf (state (store self)) t.nodes) }
    {
        self.table.table()
    }
}
