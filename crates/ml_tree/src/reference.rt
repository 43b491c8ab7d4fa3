//! What a name stands for.

/// A predefined operation.
#[derive(Clone, Copy, Debug, PartialEq, Eq)]
pub enum Op {
    PrintString,
    PrintInt,
    PrintChar,
    PrerrString,
    StringOfInt,
    IntOfChar,
    CharOfInt,
    StringLength,
    StringGet,
    Exit,
    Failwith,
}

/// What a node names.
#[derive(Clone, Copy, Debug, PartialEq, Eq)]
pub enum Ref {
    /// A name that an item binds, by the number of its binder.
    Top(u32),
    /// Any other name, by the number of its binder.
    Local(u32),
    Operation(Op),
    /// A declaration and the place of a constructor in it.
    Con(u32, u32),
    /// A declaration and the place of a field in it.
    Field(u32, u32),
    /// A declaration.
    Decl(u32),
}

/// What a type expression names.
#[derive(Clone, Copy, Debug, PartialEq, Eq)]
pub enum TyRef {
    /// A declaration: 0 `int`, 1 `char`, 2 `string`, 3 `bool`, 4 `unit`, 5 `list`, 6 `option`, and
    /// from 7 on the written ones in the order of the source.
    Decl(u32),
    /// A type variable, by its place among the variables of its declaration, and after these, or in
    /// an item, by its place in the order of first use.
    Var(u32),
}
