//! Terms of equations as types of the bindings.
ghost use Rattle.std.specs.Prelude.{◌≡◌, ◌+◌, ◌-◌, ◌<◌, IfOk, OnOk, IfSome, IsNone, Some, List, [], ◌∷◌, length, map, option_map, slice_get};
ghost use Rattle.ml_types.specs.declared.declared.ArgInfo.{ArgInfo as ArgValue};
ghost use Rattle.ml_types.specs.declared.declared.DeclInfo.{DeclInfo as DeclValue};
ghost use Rattle.ml_typing.specs.Terms.{Shape, Context, shape_of, top, made, argument, field, named, function, at_fresh, cons_of, fields_of, product, no_shape, fresh_from};
ghost use Rattle.ml_typing.specs.Typing.{alias_of};
ghost use Rattle.ml_types.specs.Types.{Tree};
ghost use Rattle.hm_unify.specs.Solutions.{Stands};
ghost use Rattle.hm_terms.specs.Stores.{store, Grows, IsReady};
ghost use Rattle.hm_terms.specs.Shapes.{Lowers, LowersAll, Holds, HoldAll};
ghost use Rattle.hm_terms.specs.Contexts.{IsRead, vars_of};
ghost use Rattle.hm_terms.specs.Slots.{at_fresh_of, IsNothing, MakesCopy};
ghost use Rattle.hm_terms.specs.Spelling.{IsAtFresh, IsTop, IsOperation, AreFresh, IsMade, AreAtFresh, IsProduct, IsWhole, IsArgument, IsField, IsNamed, Arrows, Spells, SpellAll};

use crate::instances::{Put, instance};
use crate::solver::Solver;
use ml_tree::Op;
use ml_types::{ArgInfo, ConInfo, DeclInfo, Decls, FieldInfo, TyId, TyNode};
use ml_typing::{Term, Unknown};
use oxml_base::{Items, NoMemory};
use sqlite_items::at;

/// The type of a term.
#[cycle(terms)]
pub fn type_of(solver: &mut Solver, d: &Decls, term: &Term) -> Result<TyId, NoMemory>
    ensures lowers { IfOk result (λ x. (c : Context) → IsRead (store solver.old) d.now.types c → Lowers (store solver.old) (store solver.new) (shape_of c term.now) x) }
    ensures spells { IfOk result (λ x. IsReady (store solver.old) → Grows (store solver.old) (store solver.new) × Spells (store solver.new) d.now.types solver.old.slots term.now solver.new.slots x) }
{
    match term {
        Term::Of(unknown) => solver.unknown(*unknown),
        Term::Top { binder, node } => top_type(solver, d, *binder, *node),
        Term::Operation { op, node } => operation_type(solver, d, *op, *node),
        Term::Made { decl, node } => made_type(solver, d, *decl, *node),
        Term::Argument { decl, con, node } => argument_type(solver, d, *decl, *con, *node),
        Term::Field { decl, field, node } => field_type(solver, d, *decl, *field, *node),
        Term::Con(decl, args) => {
            let ids = types_of(solver, d, args.as_slice())?;
            named_type(solver, d, *decl, ids)
        }
        Term::Tuple(parts) => {
            let ids = types_of(solver, d, parts.as_slice())?;
            solver.add(TyNode::Tuple(ids))
        }
        Term::Function(params, result) => {
            let ids = types_of(solver, d, params.as_slice())?;
            let to = type_of(solver, d, result.get())?;
            function_type(solver, ids.as_slice(), to)
        }
    }
}

/// The types of terms.
#[cycle(terms)]
fn types_of(solver: &mut Solver, d: &Decls, terms: &[Term]) -> Result<Items<TyId>, NoMemory>
    ensures lowers { IfOk result (λ xs. (c : Context) → IsRead (store solver.old) d.now.types c → LowersAll (store solver.old) (store solver.new) (map (shape_of c) terms.now) xs) }
    ensures spells { IfOk result (λ xs. IsReady (store solver.old) → Grows (store solver.old) (store solver.new) × SpellAll (store solver.new) d.now.types solver.old.slots terms.now solver.new.slots xs) }
{
    let mut ids = Items::new(solver.alloc);
    for term in terms {
        let id = type_of(solver, d, term)?;
        ids.push(id)?;
    }
    Ok(ids)
}

/// A type at the fresh types of a node.
fn fresh_instance(solver: &mut Solver, id: TyId, node: u32) -> Result<TyId, NoMemory>
    ensures lowers { IfOk result (λ x. (w : Tree) → IsReady (store solver.old) → Stands (store solver.old).nodes (store solver.old).bound id w → Lowers (store solver.old) (store solver.new) (at_fresh node w) x) }
    ensures copies { IfOk result (λ x. IsReady (store solver.old) → MakesCopy (store solver.old) (store solver.new) (at_fresh_of node) id x) }
    ensures slots { OnOk result (solver.new.slots ≡ solver.old.slots) }
{
    instance(solver, id, Put::Fresh(node))
}

/// The id of a declared type, in which abbreviations are expanded.
fn declared_type(solver: &Solver, ty: TyId) -> Result<TyId, NoMemory>
    ensures { IfOk result (λ y. (store solver.now).declared ty.0 ≡ Some y) }
{
    solver.declared(ty).ok_or(NoMemory)
}

/// A declared type at the fresh types of a node.
fn declared_instance(solver: &mut Solver, ty: TyId, node: u32) -> Result<TyId, NoMemory>
    ensures lowers { IfOk result (λ x. (decls : List DeclValue) (c : Context) → IsRead (store solver.old) decls c → Lowers (store solver.old) (store solver.new) (at_fresh node (c.declared ty)) x) }
    ensures copies { IfOk result (λ x. IsReady (store solver.old) → Grows (store solver.old) (store solver.new) × IsAtFresh (store solver.new) node ((store solver.new).declared ty.0) x) }
    ensures slots { OnOk result (solver.new.slots ≡ solver.old.slots) }
{
    let expanded = declared_type(solver, ty)?;
    fresh_instance(solver, expanded, node)
}

/// The type of a top-level name at a use.
fn top_type(solver: &mut Solver, d: &Decls, binder: u32, node: u32) -> Result<TyId, NoMemory>
    ensures lowers { IfOk result (λ x. (c : Context) → IsRead (store solver.old) d.now.types c → Lowers (store solver.old) (store solver.new) (top (c.scheme binder) binder node) x) }
    ensures copies { IfOk result (λ x. IsReady (store solver.old) → Grows (store solver.old) (store solver.new) × IsTop (store solver.new) binder node x) }
    ensures slots { OnOk result (solver.new.slots ≡ solver.old.slots) }
{
    match solver.scheme(binder) {
        Some(id) => fresh_instance(solver, id, node),
        None => solver.unknown(Unknown::Binder(binder)),
    }
}

/// The type of an operation at the fresh types of a node.
fn operation_type(solver: &mut Solver, d: &Decls, op: Op, node: u32) -> Result<TyId, NoMemory>
    ensures lowers { IfOk result (λ x. (c : Context) → IsRead (store solver.old) d.now.types c → Lowers (store solver.old) (store solver.new) (at_fresh node (c.operation op)) x) }
    ensures copies { IfOk result (λ x. IsReady (store solver.old) → Grows (store solver.old) (store solver.new) × IsOperation (store solver.new) op node x) }
    ensures slots { OnOk result (solver.new.slots ≡ solver.old.slots) }
{
    match solver.operation(op) {
        Some(id) => fresh_instance(solver, id, node),
        None => Err(NoMemory),
    }
}

/// The declaration of this number.
fn declaration(d: &Decls, decl: u32) -> Option<&DeclInfo>
    ensures { option_map (λ i. i.now) result ≡ slice_get d.now.types decl }
{
    at(d.types.as_slice(), decl as usize)
}

/// How many parameters the declaration of this number has; none where there is none.
fn variables(d: &Decls, decl: u32) -> u32
    ensures { result ≡ vars_of (slice_get d.now.types decl) }
{
    match declaration(d, decl) {
        Some(info) => info.vars,
        None => 0,
    }
}

/// A declaration at the fresh types of a node.
fn made_type(solver: &mut Solver, d: &Decls, decl: u32, node: u32) -> Result<TyId, NoMemory>
    ensures lowers { IfOk result (λ x. IsReady (store solver.old) → Lowers (store solver.old) (store solver.new) (made decl node (slice_get d.now.types decl)) x) }
    ensures makes { IfOk result (λ x. Grows (store solver.old) (store solver.new) × IsMade (store solver.new) decl node (vars_of (slice_get d.now.types decl)) x) }
    ensures slots { OnOk result (solver.new.slots ≡ solver.old.slots) }
{
    let ids = fresh_types(solver, node, variables(d, decl))?;
    solver.add(TyNode::Con(decl, ids))
}

/// The first fresh types of a node.
fn fresh_types(solver: &mut Solver, node: u32, count: u32) -> Result<Items<TyId>, NoMemory>
    ensures lowers { IfOk result (λ xs. IsReady (store solver.old) → LowersAll (store solver.old) (store solver.new) (fresh_from node count 0) xs) }
    ensures fresh { IfOk result (λ xs. Grows (store solver.old) (store solver.new) × AreFresh (store solver.new) node count xs) }
    ensures slots { OnOk result (solver.new.slots ≡ solver.old.slots) }
{
    let mut ids = Items::new(solver.alloc);
    for number in 0..count {
        let id = solver.unknown(Unknown::Fresh(node, number))?;
        ids.push(id)?;
    }
    Ok(ids)
}

/// The constructor of a declaration at this place.
fn constructor(d: &Decls, decl: u32, con: u32) -> Option<&ConInfo>
    ensures { option_map (λ i. i.now) result ≡ slice_get (cons_of (slice_get d.now.types decl)) con }
{
    match declaration(d, decl) {
        Some(info) => at(info.cons.as_slice(), con as usize),
        None => None,
    }
}

/// The field of a declaration at this place.
fn field_at(d: &Decls, decl: u32, field: u32) -> Option<&FieldInfo>
    ensures { option_map (λ i. i.now) result ≡ slice_get (fields_of (slice_get d.now.types decl)) field }
{
    match declaration(d, decl) {
        Some(info) => at(info.fields.as_slice(), field as usize),
        None => None,
    }
}

/// The whole argument of a constructor at the fresh types of a node.
fn argument_type(
    solver: &mut Solver,
    d: &Decls,
    decl: u32,
    con: u32,
    node: u32,
) -> Result<TyId, NoMemory>
    ensures lowers { IfOk result (λ x. (c : Context) → IsRead (store solver.old) d.now.types c → Lowers (store solver.old) (store solver.new) (argument c.declared node (slice_get (cons_of (slice_get d.now.types decl)) con)) x) }
    ensures copies { IfOk result (λ x. IsReady (store solver.old) → Grows (store solver.old) (store solver.new) × IsArgument (store solver.new) node (slice_get (cons_of (slice_get d.now.types decl)) con) x) }
    ensures slots { OnOk result (solver.new.slots ≡ solver.old.slots) }
{
    match constructor(d, decl, con) {
        Some(info) => whole_argument(solver, info.args.as_slice(), node),
        None => nothing(solver),
    }
}

/// The product of a constructor's fields at the fresh types of a node, or the one field's type.
fn whole_argument(solver: &mut Solver, args: &[ArgInfo], node: u32) -> Result<TyId, NoMemory>
    ensures lowers { IfOk result (λ x. (decls : List DeclValue) (c : Context) → IsRead (store solver.old) decls c → Lowers (store solver.old) (store solver.new) (product (map (λ (a : ArgValue). at_fresh node (c.declared a.ty)) args.now)) x) }
    ensures copies { IfOk result (λ x. IsReady (store solver.old) → Grows (store solver.old) (store solver.new) × IsWhole (store solver.new) node args.now x) }
    ensures slots { OnOk result (solver.new.slots ≡ solver.old.slots) }
{
    let ids = argument_types(solver, args, node)?;
    product_type(solver, ids)
}

/// The types of a constructor's fields at the fresh types of a node.
fn argument_types(solver: &mut Solver, args: &[ArgInfo], node: u32) -> Result<Items<TyId>, NoMemory>
    ensures lowers { IfOk result (λ xs. (decls : List DeclValue) (c : Context) → IsRead (store solver.old) decls c → LowersAll (store solver.old) (store solver.new) (map (λ (a : ArgValue). at_fresh node (c.declared a.ty)) args.now) xs) }
    ensures copies { IfOk result (λ xs. IsReady (store solver.old) → Grows (store solver.old) (store solver.new) × AreAtFresh (store solver.new) node args.now xs) }
    ensures slots { OnOk result (solver.new.slots ≡ solver.old.slots) }
{
    let mut ids = Items::new(solver.alloc);
    for number in 0..args.len() {
        let Some(ty) = argument_at(args, number) else {
            return Err(NoMemory)
        };
        let id = declared_instance(solver, ty, node)?;
        ids.push(id)?;
    }
    Ok(ids)
}

/// The type of a field by its place.
fn argument_at(args: &[ArgInfo], number: usize) -> Option<TyId>
    ensures { result ≡ option_map (λ a. a.ty) (slice_get args.now number) }
{
    match at(args, number) {
        Some(arg) => Some(arg.ty),
        None => None,
    }
}

/// The product of several types, or the one type.
fn product_type(solver: &mut Solver, ids: Items<TyId>) -> Result<TyId, NoMemory>
    ensures lowers { IfOk result (λ x. (hs : List Shape) → IsReady (store solver.old) → HoldAll (store solver.old) hs ids → Lowers (store solver.old) (store solver.new) (product hs) x) }
    ensures makes { IfOk result (λ x. Grows (store solver.old) (store solver.new) × IsProduct (store solver.new) ids x) }
    ensures slots { OnOk result (solver.new.slots ≡ solver.old.slots) }
{
    match only(ids.as_slice()) {
        Some(id) => Ok(id),
        None => solver.add(TyNode::Tuple(ids)),
    }
}

/// The one id of a list.
fn only(ids: &[TyId]) -> Option<TyId>
    ensures some { IfSome result (λ x. ids.now ≡ x ∷ []) }
    ensures none { IsNone result → length ids.now ≡ 1 → ⊥ }
{
    if ids.len() == 1 { Some(ids[0]) } else { None }
}

/// The empty product, for what is not there.
fn nothing(solver: &mut Solver) -> Result<TyId, NoMemory>
    ensures lowers { IfOk result (λ x. IsReady (store solver.old) → Lowers (store solver.old) (store solver.new) no_shape x) }
    ensures makes { IfOk result (λ x. Grows (store solver.old) (store solver.new) × IsNothing (store solver.new) x) }
    ensures slots { OnOk result (solver.new.slots ≡ solver.old.slots) }
{
    solver.nothing()
}

/// A field of a record at the fresh types of a node.
fn field_type(
    solver: &mut Solver,
    d: &Decls,
    decl: u32,
    number: u32,
    node: u32,
) -> Result<TyId, NoMemory>
    ensures lowers { IfOk result (λ x. (c : Context) → IsRead (store solver.old) d.now.types c → Lowers (store solver.old) (store solver.new) (field c.declared node (slice_get (fields_of (slice_get d.now.types decl)) number)) x) }
    ensures copies { IfOk result (λ x. IsReady (store solver.old) → Grows (store solver.old) (store solver.new) × IsField (store solver.new) node (slice_get (fields_of (slice_get d.now.types decl)) number) x) }
    ensures slots { OnOk result (solver.new.slots ≡ solver.old.slots) }
{
    match field_at(d, decl, number) {
        Some(info) => declared_instance(solver, info.arg.ty, node),
        None => nothing(solver),
    }
}

/// The type that a declaration abbreviates.
fn abbreviated(d: &Decls, decl: u32) -> Option<TyId>
    ensures { result ≡ alias_of (slice_get d.now.types decl) }
{
    match declaration(d, decl) {
        Some(info) => info.alias,
        None => None,
    }
}

/// A declaration at arguments, an abbreviation as the type that it stands for.
fn named_type(
    solver: &mut Solver,
    d: &Decls,
    decl: u32,
    args: Items<TyId>,
) -> Result<TyId, NoMemory>
    ensures lowers { IfOk result (λ x. (c : Context) (hs : List Shape) → IsRead (store solver.old) d.now.types c → HoldAll (store solver.old) hs args → Lowers (store solver.old) (store solver.new) (named c.declared decl hs (slice_get d.now.types decl)) x) }
    ensures makes { IfOk result (λ x. IsReady (store solver.old) → Grows (store solver.old) (store solver.new) × IsNamed (store solver.new) decl (alias_of (slice_get d.now.types decl)) args x) }
    ensures slots { OnOk result (solver.new.slots ≡ solver.old.slots) }
{
    match abbreviated(d, decl) {
        None => solver.add(TyNode::Con(decl, args)),
        Some(body) => {
            let expanded = declared_type(solver, body)?;
            instance(solver, expanded, Put::Arguments(args.as_slice()))
        }
    }
}

/// Arrows from parameters to a result, each with a slot of its own.
fn function_type(solver: &mut Solver, params: &[TyId], last: TyId) -> Result<TyId, NoMemory>
    ensures lowers { IfOk result (λ x. (hs : List Shape) (r : Shape) → IsReady (store solver.old) → HoldAll (store solver.old) hs params.now → Holds (store solver.old) r last → Lowers (store solver.old) (store solver.new) (function hs r) x) }
    ensures arrows { IfOk result (λ x. Grows (store solver.old) (store solver.new) × Arrows (store solver.new) solver.old.slots params.now last solver.new.slots x) }
{
    let mut to = last;
    for done in 0..params.len() {
        let Some(from) = from_end(params, done) else {
            return Err(NoMemory)
        };
        to = solver.arrow(from, to)?;
    }
    Ok(to)
}

/// The id with so many behind it.
fn from_end(params: &[TyId], done: usize) -> Option<TyId>
    ensures { IfSome result (λ x. (done < length params.now) × (slice_get params.now (length params.now - (done + 1)) ≡ Some x)) }
{
    if done >= params.len() {
        return None;
    }
    at(params, params.len() - (done + 1)).copied()
}
