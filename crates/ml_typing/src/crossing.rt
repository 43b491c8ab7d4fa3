ghost use Rattle.std.specs.Prelude.{◌≡◌, Some, slice_get};
ghost use Rattle.ml_typing.specs.Crossing.{no_axis, all_axes, text_axes, is_constant, all_constant, is_enumeration, cons_of, declared_axes, axes};

use ml_types::{ConInfo, DeclInfo, Decls, TyNode};
use sqlite_items::at;

/// The axes of modes on which a value of a type is the same at each mode.
#[derive(Clone, Copy, Debug, PartialEq, Eq)]
pub struct Cross {
    /// Locality.
    pub loc: bool,
    /// Uniqueness.
    pub uni: bool,
    /// Affinity.
    pub aff: bool,
}

pub const NO_AXIS: Cross = Cross {
    loc: false,
    uni: false,
    aff: false,
};

const ALL: Cross = Cross {
    loc: true,
    uni: true,
    aff: true,
};

const TEXT: Cross = Cross {
    loc: false,
    uni: true,
    aff: true,
};

/// Whether none of the constructors has a field.
fn all_constant(cons: &[ConInfo]) -> bool
    ensures { result ≡ all_constant cons.now }
{
    for con in cons {
        if !con.args.is_empty() {
            return false;
        }
    }
    true
}

/// Whether the declaration of this number is a variant whose constructors all have no field.
fn is_enumeration(decls: &[DeclInfo], number: u32) -> bool
    ensures { result ≡ is_enumeration (cons_of (slice_get decls.now number)) }
{
    let Some(info) = at(decls, number as usize) else {
        return false
    };
    let cons = info.cons.as_slice();
    if cons.is_empty() {
        return false;
    }
    all_constant(cons)
}

/// The axes that a node of a type crosses.
pub fn axes(d: &Decls, node: &TyNode) -> Cross
    ensures { result ≡ axes d.now.types (Some node.now) }
{
    let TyNode::Con(number, _) = node else {
        return NO_AXIS
    };
    match *number {
        0 => ALL,
        1 => ALL,
        2 => TEXT,
        _ => {
            if is_enumeration(d.types.as_slice(), *number) {
                ALL
            } else {
                NO_AXIS
            }
        }
    }
}
