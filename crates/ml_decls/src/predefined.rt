//! The predefined declarations.
ghost use Rattle.std.specs.Prelude.{◌≡◌, ◌<◌, [], ◌∷◌, ◌++◌, length, IfOk, OnOk};
ghost use Rattle.ml_types.specs.declared.node.TyNode.TheVariants.{Con};
ghost use Rattle.ml_decls.specs.Said.{predefined};
ghost use Rattle.ml_decls.specs.Tables.{Says, Each};
ghost use Rattle.ml_decls.specs.Predefined.{con_info, variant_info, bool_info, unit_info, list_info, option_info, all_infos};

use crate::table::Making;
use ml_tree::{ConName, Words};
use ml_types::{ArgInfo, ConInfo, DeclInfo, TyId, TyNode};
use oxml_base::{Items, NoMemory, Span};
use std::alloc::Global;

/// The place of the names of what is predefined.
const NOWHERE: Span = Span { start: 0, end: 0 };

const NO_WORDS: Words = Words {
    loc: None,
    uni: None,
    aff: None,
};

/// A type without constructors.
fn empty(alloc: Global) -> DeclInfo
    ensures { result ≡ variant_info 0 [] }
{
    variant(alloc, 0, Items::new(alloc))
}

/// A constructor of fields of these types.
fn constructor(alloc: Global, name: ConName, types: &[TyId]) -> Result<ConInfo, NoMemory>
    ensures { IfOk result (λ con. con ≡ con_info name types.now) }
{
    let mut args = Items::new(alloc);
    for ty in types {
        args.push(ArgInfo {
            words: NO_WORDS,
            ty: *ty,
        })?;
    }
    Ok(ConInfo { name, args })
}

/// A type of so many variables with these constructors.
fn variant(alloc: Global, vars: u32, cons: Items<ConInfo>) -> DeclInfo
    ensures { result ≡ variant_info vars cons }
{
    DeclInfo {
        name: NOWHERE,
        vars,
        cons,
        fields: Items::new(alloc),
        alias: None,
    }
}

fn one(alloc: Global, con: ConInfo) -> Result<Items<ConInfo>, NoMemory>
    ensures { IfOk result (λ cons. cons ≡ con ∷ []) }
{
    let mut cons = Items::new(alloc);
    cons.push(con)?;
    Ok(cons)
}

fn two(alloc: Global, first: ConInfo, second: ConInfo) -> Result<Items<ConInfo>, NoMemory>
    ensures { IfOk result (λ cons. cons ≡ first ∷ second ∷ []) }
{
    let mut cons = one(alloc, first)?;
    cons.push(second)?;
    Ok(cons)
}

/// `false` and `true`.
fn truth(alloc: Global) -> Result<DeclInfo, NoMemory>
    ensures { IfOk result (λ info. info ≡ bool_info) }
{
    let first = constructor(alloc, ConName::False, &[])?;
    let second = constructor(alloc, ConName::True, &[])?;
    Ok(variant(alloc, 0, two(alloc, first, second)?))
}

/// `()`.
fn unit(alloc: Global) -> Result<DeclInfo, NoMemory>
    ensures { IfOk result (λ info. info ≡ unit_info) }
{
    let only = constructor(alloc, ConName::Unit, &[])?;
    Ok(variant(alloc, 0, one(alloc, only)?))
}

/// Lists: `[]`, and `::` of an element and a list.
fn lists(alloc: Global, element: TyId, list: TyId) -> Result<DeclInfo, NoMemory>
    ensures { IfOk result (λ info. info ≡ list_info element list) }
{
    let first = constructor(alloc, ConName::Nil, &[])?;
    let second = constructor(alloc, ConName::Named(NOWHERE), &[element, list])?;
    Ok(variant(alloc, 1, two(alloc, first, second)?))
}

/// Options: `None`, and `Some` of an element.
fn options(alloc: Global, element: TyId) -> Result<DeclInfo, NoMemory>
    ensures { IfOk result (λ info. info ≡ option_info element) }
{
    let first = constructor(alloc, ConName::Named(NOWHERE), &[])?;
    let second = constructor(alloc, ConName::Named(NOWHERE), &[element])?;
    Ok(variant(alloc, 1, two(alloc, first, second)?))
}

/// The declarations, where these are the ids of the variable 0 and of its list.
fn infos(alloc: Global, element: TyId, list: TyId) -> Result<Items<DeclInfo>, NoMemory>
    ensures { IfOk result (λ infos. infos ≡ all_infos element list) }
{
    let mut infos = Items::new(alloc);
    infos.push(empty(alloc))?;
    infos.push(empty(alloc))?;
    infos.push(empty(alloc))?;
    infos.push(truth(alloc)?)?;
    infos.push(unit(alloc)?)?;
    infos.push(lists(alloc, element, list)?)?;
    infos.push(options(alloc, element)?)?;
    Ok(infos)
}

/// The type of lists of this one.
fn push_list(element: TyId, made: &mut Making) -> Result<TyId, NoMemory>
    requires { element.0 < length made.old.nodes }
    ensures id { IfOk result (λ id. id.0 ≡ length made.old.nodes) }
    ensures nodes { OnOk result (made.new.nodes ≡ made.old.nodes ++ Con 5 (element ∷ []) ∷ []) }
{
    let args = Items::from_slice(made.alloc(), &[element])?;
    made.push(TyNode::Con(5, args))
}

/// The predefined declarations: int, char, string, bool, unit, list and option. The table is empty
/// before.
pub fn predefined(made: &mut Making) -> Result<Items<DeclInfo>, NoMemory>
    requires { made.old.nodes ≡ [] }
    ensures { IfOk result (λ infos. Each (Says made.new.nodes) infos predefined) }
{
    let element = made.push(TyNode::Var(0))?;
    let list = push_list(element, made)?;
    let infos = infos(made.alloc(), element, list)?;
    Ok(infos)
}
