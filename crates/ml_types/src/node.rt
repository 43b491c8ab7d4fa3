use oxml_base::Items;

/// The place of a node in a table of types, counted from 0.
#[derive(Clone, Copy, Debug, PartialEq, Eq)]
pub struct TyId(pub u32);

/// One node of a type. Its parts stand in the same table.
#[derive(Debug, Drop)]
pub enum TyNode {
    /// The variable of this number.
    Var(u32),
    /// The declaration of this number at its arguments, one for each parameter.
    Con(u32, Items<TyId>),
    /// The product of its parts.
    Tuple(Items<TyId>),
    /// A function type. The slot is where its modes are kept; it is no part of the type's equality.
    Arrow { slot: u32, from: TyId, to: TyId },
}

/// Types that share their parts: a node's parts are places in the table.
#[derive(Debug, Drop)]
pub struct TyTable {
    pub nodes: Items<TyNode>,
}

/// A type in which some variables stand for any type.
#[derive(Debug, Drop)]
pub struct Scheme {
    /// The numbers of these variables.
    pub vars: Items<u32>,
    pub ty: TyId,
}
