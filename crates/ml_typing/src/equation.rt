use ml_tree::Op;
use oxml_base::{Items, Span};
use sqlite_items::Boxed;

/// A type that equations are to find.
#[derive(Clone, Copy, Debug, PartialEq, Eq, Hash)]
pub enum Unknown {
    /// The type of the node of this number.
    Node(u32),
    /// The type of the name that the node of this number binds.
    Binder(u32),
    /// A fresh type: at the node of the first number the one of the second.
    Fresh(u32, u32),
}

/// A type that an equation writes down.
#[cycle(terms)]
#[derive(Debug, Drop)]
pub enum Term {
    Of(Unknown),
    /// The type of a name that an item binds, at a use: the name's own inside its item, and behind it
    /// an instance at the fresh types of the use.
    Top { binder: u32, node: u32 },
    /// The type of an operation at the fresh types of a node.
    Operation { op: Op, node: u32 },
    /// A declaration at the fresh types of a node.
    Made { decl: u32, node: u32 },
    /// The whole argument of a constructor of a declaration, at the fresh types of a node: the type
    /// of its field, or the product of its fields' types where there are several.
    Argument { decl: u32, con: u32, node: u32 },
    /// A field of a declaration at the fresh types of a node.
    Field { decl: u32, field: u32, node: u32 },
    /// A declaration at arguments. An abbreviation is the type that it stands for.
    Con(u32, Items<Term>),
    Tuple(Items<Term>),
    /// A function's type, from each of its parameters in order to its result.
    Function(Items<Term>, Boxed<Term>),
}

/// Two types that must be equal, and the part of the program that is refused where they cannot be.
#[derive(Debug, Drop)]
pub struct Equation {
    pub part: Span,
    pub left: Unknown,
    pub right: Term,
}

/// One step of a program's typing: a node, a bind or an item, with its equations in order.
#[derive(Debug, Drop)]
pub struct Step {
    pub span: Span,
    /// The node whose step it is. A bind is no node.
    pub node: Option<u32>,
    pub equations: Items<Equation>,
    /// The type of the operands, where it is the step of a comparison.
    pub compared: Option<Unknown>,
}
