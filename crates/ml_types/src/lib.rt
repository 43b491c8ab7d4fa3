//! Types as a table of nodes, schemes over such a table, and the types that declarations give.
#![tactic(auto)]

mod declared;
mod node;

pub use declared::{ArgInfo, ConInfo, DeclInfo, Decls, FieldInfo};
pub use node::{Scheme, TyId, TyNode, TyTable};
