use crate::node::TyId;
use ml_tree::{ConName, Words};
use oxml_base::{Items, Span};

/// The declarations of a program, the predefined ones first, each at its number.
#[derive(Debug, Drop)]
pub struct Decls {
    pub types: Items<DeclInfo>,
}

/// One declaration. Its parameters are the variables 0 up to but not including `vars`; exactly one
/// of constructors, fields and `alias` is there, save that a type may have no constructor.
#[derive(Debug, Drop)]
pub struct DeclInfo {
    pub name: Span,
    /// How many parameters it has.
    pub vars: u32,
    pub cons: Items<ConInfo>,
    pub fields: Items<FieldInfo>,
    /// The type that it abbreviates.
    pub alias: Option<TyId>,
}

/// A constructor with the types of its fields.
#[derive(Debug, Drop)]
pub struct ConInfo {
    pub name: ConName,
    pub args: Items<ArgInfo>,
}

/// A record's field with its type.
#[derive(Debug, Drop)]
pub struct FieldInfo {
    pub name: Span,
    pub arg: ArgInfo,
}

/// The type of a constructor's or record's field, with the mode words that stand before it.
#[derive(Clone, Copy, Debug, PartialEq, Eq)]
pub struct ArgInfo {
    pub words: Words,
    pub ty: TyId,
}
