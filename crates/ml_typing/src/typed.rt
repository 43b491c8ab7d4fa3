ghost use Rattle.std.specs.Prelude.{◌≡◌, slice_get};
ghost use Rattle.ml_typing.specs.Crossing.{axes, type_of_node};

use crate::crossing::{Cross, NO_AXIS, axes};
use ml_types::{Decls, Scheme, TyId, TyTable};
use oxml_base::Items;
use sqlite_items::at;

/// The types of a program.
///
/// All ids lie in the table, no id reaches itself, and no type in it is an abbreviation.
#[derive(Debug, Drop)]
pub struct Typed {
    /// The nodes of all types. A variable in it stands for any type.
    pub table: TyTable,
    /// The type of each node of the program, by the node's number. An item has a type of its own,
    /// which says nothing.
    pub node: Items<TyId>,
    /// The scheme of each name that an item binds, in the order of the numbers of their binders.
    pub schemes: Items<Scheme>,
    /// How many slots the arrows of the table have; their numbers are those below it.
    pub slots: u32,
}

impl Typed {
    /// The axes that a node's type crosses: int, char, bool, unit and variants whose constructors all
    /// have no field cross all, and string crosses uniqueness and affinity. Nothing else crosses any,
    /// nor does the type of a number that is no node's. Takes no memory.
    pub fn crosses(&self, d: &Decls, node: u32) -> Cross
        ensures { result ≡ axes d.now.types (type_of_node self.now.table.nodes (slice_get self.now.node node)) }
    {
        let Some(id) = at(self.node.as_slice(), node as usize) else {
            return NO_AXIS
        };
        match at(self.table.nodes.as_slice(), id.0 as usize) {
            Some(ty) => axes(d, ty),
            None => NO_AXIS,
        }
    }
}
