//! Written types as nodes of a table.
ghost use Rattle.std.specs.Prelude.{◌≡◌, ◌+◌, ◌<◌, ℕ, List, [], ◌∷◌, ◌++◌, length, map, slice_get, Some, IfOk, OnOk};
ghost use Rattle.ml_types.specs.Types.{parts_of, Tree, Leaf, Node, Cons, Nil, ConHead, TupleHead, ArrowHead};
ghost use Rattle.ml_types.specs.declared.node.TyId.{TyId};
ghost use Rattle.ml_types.specs.declared.node.TyNode.TheVariants.{Var, Con, Tuple, Arrow};
ghost use Rattle.ml_decls.specs.Lists.{find};
ghost use Rattle.ml_decls.specs.Said.{type_named, variable_type, listed, written, kind_written, arg_written, said_arg};
ghost use Rattle.ml_decls.specs.Tables.{IsMaking, HasType, Each, ArgSays, Grows, slot_of};

use crate::references::target;
use ml_tree::{Arg, Scoped, TyExpr, TyKind, TyRef};
use ml_types::{ArgInfo, TyId, TyNode};
use oxml_base::{Items, NoMemory};
use std::alloc::Global;

/// A table of types in the making.
#[derive(Drop)]
pub struct Making {
    alloc: Global,
    pub nodes: Items<TyNode>,
    /// How many arrows have a slot.
    arrows: u32,
    ghost well_made: { IsMaking nodes arrows },
}

/// A length as a number of 32 bits; a tree has fewer parts of any kind.
pub fn count(length: usize) -> Result<u32, NoMemory>
    ensures { IfOk result (λ n. n ≡ length) }
{
    match u32::try_from(length) {
        Ok(n) => Ok(n),
        Err(_) => Err(NoMemory),
    }
}

/// The number after this one; there are fewer than 2^32 arrows.
fn after(number: u32) -> Result<u32, NoMemory>
    ensures { IfOk result (λ n. n ≡ number + 1) }
{
    number.checked_add(1).ok_or(NoMemory)
}

impl Making {
    /// A table without a node.
    #[tactic(auto, using(crate::proofs::Trees::making_none))]
    pub fn new(alloc: Global) -> Making
        ensures { result.nodes ≡ [] }
    {
        Making {
            alloc,
            nodes: Items::new(alloc),
            arrows: 0,
        }
    }

    pub fn alloc(&self) -> Global {
        self.alloc
    }

    /// One node more, which is no function type. The answer is its place.
    pub fn push(&mut self, node: TyNode) -> Result<TyId, NoMemory>
        requires plain { slot_of node ≡ [] }
        requires before { (k : ℕ) (p : TyId) → slice_get (parts_of node) k ≡ Some p → p.0 < length self.old.nodes }
        ensures id { IfOk result (λ id. id.0 ≡ length self.old.nodes) }
        ensures nodes { OnOk result (self.new.nodes ≡ self.old.nodes ++ node ∷ []) }
    {
        let id = count(self.nodes.len())?;
        self.nodes.push(node)?;
        Ok(TyId(id))
    }

    /// A function type, with a slot of its own.
    #[tactic(auto, using(crate::proofs::Trees::making_same))]
    fn push_arrow(&mut self, from: TyId, to: TyId) -> Result<TyId, NoMemory>
        requires from { from.0 < length self.old.nodes }
        requires to { to.0 < length self.old.nodes }
        ensures id { IfOk result (λ id. id.0 ≡ length self.old.nodes) }
        ensures nodes { OnOk result ((slot : ℕ) × (self.new.nodes ≡ self.old.nodes ++ Arrow slot from to ∷ [])) }
    {
        let slot = self.arrows;
        let arrows = after(slot)?;
        let id = count(self.nodes.len())?;
        self.nodes.push(TyNode::Arrow { slot, from, to })?;
        self.arrows = arrows;
        Ok(TyId(id))
    }
}

/// The declaration of this number at arguments.
fn push_con(number: u32, args: Items<TyId>, made: &mut Making) -> Result<TyId, NoMemory>
    requires { (k : ℕ) (p : TyId) → slice_get args k ≡ Some p → p.0 < length made.old.nodes }
    ensures grows { OnOk result (Grows made.old.nodes made.new.nodes) }
    ensures ty { IfOk result (λ id. (ts : List Tree) → Each (HasType made.old.nodes) args ts → HasType made.new.nodes id (Node (ConHead number (length ts)) (listed ts))) }
{
    let id = made.push(TyNode::Con(number, args))?;
    Ok(id)
}

/// The variable of this number.
fn push_var(number: u32, made: &mut Making) -> Result<TyId, NoMemory>
    ensures grows { OnOk result (Grows made.old.nodes made.new.nodes) }
    ensures ty { IfOk result (λ id. HasType made.new.nodes id (Leaf number)) }
{
    let id = made.push(TyNode::Var(number))?;
    Ok(id)
}

/// What a type expression names, at arguments. Each that is a name or a variable has a reference.
fn push_named(target: Option<TyRef>, args: Items<TyId>, made: &mut Making) -> Result<TyId, NoMemory>
    requires { (k : ℕ) (p : TyId) → slice_get args k ≡ Some p → p.0 < length made.old.nodes }
    ensures grows { OnOk result (Grows made.old.nodes made.new.nodes) }
    ensures ty { IfOk result (λ id. (ts : List Tree) → Each (HasType made.old.nodes) args ts → HasType made.new.nodes id (type_named ts target)) }
{
    match target {
        Some(TyRef::Decl(number)) => {
            let id = push_con(number, args, made)?;
            Ok(id)
        }
        Some(TyRef::Var(number)) => {
            let id = push_var(number, made)?;
            Ok(id)
        }
        None => Err(NoMemory),
    }
}

/// The product of these types.
fn push_tuple(parts: Items<TyId>, made: &mut Making) -> Result<TyId, NoMemory>
    requires { (k : ℕ) (p : TyId) → slice_get parts k ≡ Some p → p.0 < length made.old.nodes }
    ensures grows { OnOk result (Grows made.old.nodes made.new.nodes) }
    ensures ty { IfOk result (λ id. (ts : List Tree) → Each (HasType made.old.nodes) parts ts → HasType made.new.nodes id (Node (TupleHead (length ts)) (listed ts))) }
{
    let id = made.push(TyNode::Tuple(parts))?;
    Ok(id)
}

/// The function type between these types.
fn push_function(from: TyId, to: TyId, made: &mut Making) -> Result<TyId, NoMemory>
    requires from { from.0 < length made.old.nodes }
    requires to { to.0 < length made.old.nodes }
    ensures grows { OnOk result (Grows made.old.nodes made.new.nodes) }
    ensures ty { IfOk result (λ id. (one other : Tree) → HasType made.old.nodes from one → HasType made.old.nodes to other → HasType made.new.nodes id (Node ArrowHead (Cons one (Cons other Nil)))) }
{
    let id = made.push_arrow(from, to)?;
    Ok(id)
}

/// A type expression as a node. Its parts, from left to right, stand before it.
#[cycle(types)]
pub fn push_type(s: &Scoped, ty: &TyExpr, made: &mut Making) -> Result<TyId, NoMemory>
    ensures grows { OnOk result (Grows made.old.nodes made.new.nodes) }
    ensures ty { IfOk result (λ id. HasType made.new.nodes id (written s.now.types ty.now)) }
{
    push_kind(s, ty.id, &ty.kind, made)
}

#[cycle(types)]
fn push_kind(s: &Scoped, id: u32, kind: &TyKind, made: &mut Making) -> Result<TyId, NoMemory>
    ensures grows { OnOk result (Grows made.old.nodes made.new.nodes) }
    ensures ty { IfOk result (λ ty. HasType made.new.nodes ty (kind_written s.now.types kind.now id)) }
{
    match kind {
        TyKind::Var(_) => push_variable(target(s, id), made),
        TyKind::Con { name: _, args } => push_applied(s, id, args.as_slice(), made),
        TyKind::Tuple(parts) => push_product(s, parts.as_slice(), made),
        TyKind::Arrow { from, to } => {
            let from = push_arg_type(s, from.get(), made)?;
            let to = push_arg_type(s, to.get(), made)?;
            let ty = push_function(from, to, made)?;
            Ok(ty)
        }
    }
}

/// A variable. Each has the reference of a variable.
fn push_variable(target: Option<TyRef>, made: &mut Making) -> Result<TyId, NoMemory>
    ensures grows { OnOk result (Grows made.old.nodes made.new.nodes) }
    ensures ty { IfOk result (λ id. HasType made.new.nodes id (variable_type target)) }
{
    match target {
        Some(TyRef::Var(number)) => {
            let id = push_var(number, made)?;
            Ok(id)
        }
        Some(TyRef::Decl(_)) | None => Err(NoMemory),
    }
}

/// A name behind arguments.
#[cycle(types)]
fn push_applied(s: &Scoped, id: u32, args: &[TyExpr], made: &mut Making) -> Result<TyId, NoMemory>
    ensures grows { OnOk result (Grows made.old.nodes made.new.nodes) }
    ensures ty { IfOk result (λ ty. HasType made.new.nodes ty (type_named (map (written s.now.types) args.now) (find s.now.types id))) }
{
    let args = push_types(s, args, made)?;
    let ty = push_named(target(s, id), args, made)?;
    Ok(ty)
}

#[cycle(types)]
fn push_product(s: &Scoped, parts: &[TyExpr], made: &mut Making) -> Result<TyId, NoMemory>
    ensures grows { OnOk result (Grows made.old.nodes made.new.nodes) }
    ensures ty { IfOk result (λ ty. HasType made.new.nodes ty (Node (TupleHead (length (map (written s.now.types) parts.now))) (listed (map (written s.now.types) parts.now)))) }
{
    let parts = push_types(s, parts, made)?;
    let ty = push_tuple(parts, made)?;
    Ok(ty)
}

#[cycle(types)]
fn push_arg_type(s: &Scoped, arg: &Arg, made: &mut Making) -> Result<TyId, NoMemory>
    ensures grows { OnOk result (Grows made.old.nodes made.new.nodes) }
    ensures ty { IfOk result (λ ty. HasType made.new.nodes ty (arg_written s.now.types arg.now)) }
{
    push_type(s, &arg.ty, made)
}

#[cycle(types)]
fn push_types(s: &Scoped, list: &[TyExpr], made: &mut Making) -> Result<Items<TyId>, NoMemory>
    ensures grows { OnOk result (Grows made.old.nodes made.new.nodes) }
    ensures types { IfOk result (λ ids. Each (HasType made.new.nodes) ids (map (written s.now.types) list.now)) }
{
    let mut ids = Items::new(made.alloc());
    for one in list {
        ids.push(push_type(s, one, made)?)?;
    }
    Ok(ids)
}

/// The type of a constructor's or record's field, with the words before it.
pub fn push_arg(s: &Scoped, arg: &Arg, made: &mut Making) -> Result<ArgInfo, NoMemory>
    ensures grows { OnOk result (Grows made.old.nodes made.new.nodes) }
    ensures says { IfOk result (λ info. ArgSays made.new.nodes info (said_arg s.now.types arg.now)) }
{
    let ty = push_arg_type(s, arg, made)?;
    Ok(ArgInfo {
        words: arg.words,
        ty,
    })
}
