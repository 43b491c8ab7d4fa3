use ml_tree::{BinOp, Words};

/// A part of an expression that is a node by itself.
#[derive(Clone, Copy, Debug, PartialEq, Eq)]
pub enum Leaf {
    Int,
    Char,
    /// A lower name.
    Name,
    /// `Module.name`
    Path,
    /// An upper name.
    Upper,
    True,
    False,
    /// `()`
    Unit,
    /// `[]`
    Nil,
}

/// What an atom begins with.
#[derive(Clone, Copy, Debug, PartialEq, Eq)]
pub enum AtomLead {
    Leaf(Leaf),
    Text,
    /// `(` before a sequence.
    Paren,
    /// `begin`
    Begin,
    /// `[` before elements.
    List,
    /// `{`
    Record,
    /// No atom begins here.
    Nothing,
}

/// What stands behind an atom.
#[derive(Clone, Copy, Debug, PartialEq, Eq)]
pub enum Suffix {
    /// `.name`
    Field,
    /// `.[`
    Index,
    Nothing,
}

/// What an operand of an operator begins with.
#[derive(Clone, Copy, Debug, PartialEq, Eq)]
pub enum Lead {
    Let,
    /// `let borrow_`
    Borrow,
    Match,
    Function,
    Fun,
    If,
    Exclave,
    /// `-`
    Minus,
    /// A word that states a mode.
    Word(Words),
    Overwrite,
    /// An upper name with an atom behind it.
    Constructor,
    /// Anything else: an application begins here, or nothing.
    Application,
}

/// What an operator makes of its two operands.
#[derive(Clone, Copy, Debug, PartialEq, Eq)]
pub enum Joint {
    /// `::`
    Pair,
    Binary(BinOp),
}

/// The lists of expressions.
#[derive(Clone, Copy, Debug, PartialEq, Eq)]
pub enum ListKind {
    /// The arguments of an application.
    Arguments,
    /// The parts of a tuple, with `,` between them.
    Parts,
    /// The parts of a sequence, with `;` between them.
    Statements,
    /// The elements of a list literal, with `;` between them.
    Elements,
}

/// What stands between the items of a program.
#[derive(Clone, Copy, Debug, PartialEq, Eq)]
pub enum ItemLead {
    /// The tokens have ended.
    End,
    /// `;;`
    SemiSemi,
    Let,
    /// `type`
    Types,
    /// No item begins here.
    Other,
}
