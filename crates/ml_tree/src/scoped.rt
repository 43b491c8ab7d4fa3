ghost use Rattle.std.specs.Prelude.{◌≡◌, IfSome, IfNone};
ghost use Rattle.ml_tree.specs.Rising.{Rises, Has};
ghost use Rattle.ml_tree.specs.declared.reference.Ref.{Ref};
ghost use Rattle.ml_tree.specs.declared.reference.TyRef.{TyRef};

use crate::program::Program;
use crate::reference::{Ref, TyRef};
use oxml_base::Items;
use sqlite_items::at;

/// A program whose names are resolved.
///
/// Both lists are in the order of their numbers, so that a reference is found in a logarithmic
/// number of steps.
#[derive(Drop)]
pub struct Scoped {
    program: Program,
    refs: Items<(u32, Ref)>,
    types: Items<(u32, TyRef)>,
    ghost refs_rise: { Rises refs },
    ghost types_rise: { Rises types },
}

impl Scoped {
    /// The program with what its nodes and its type expressions name, each list in the order of the
    /// numbers. Takes no memory.
    pub fn new(program: Program, refs: Items<(u32, Ref)>, types: Items<(u32, TyRef)>) -> Scoped
        requires refs { Rises refs }
        requires types { Rises types }
        ensures program { result.program ≡ program }
        ensures refs { result.refs ≡ refs }
        ensures types { result.types ≡ types }
    {
        Scoped {
            program,
            refs,
            types,
        }
    }

    /// The program as it was parsed.
    pub fn program(&self) -> &Program
        ensures { result.now ≡ self.now.program }
    {
        &self.program
    }

    /// What the node of this number names; `None` where it names nothing.
    #[tactic(auto, using(crate::proofs::Search::between_all, crate::proofs::Search::go_above, crate::proofs::Search::go_below, crate::proofs::Search::absent))]
    pub fn target(&self, node: u32) -> Option<Ref>
        ensures some { IfSome result (Has self.now.refs node) }
        ensures none { IfNone result ((r : Ref) → Has self.now.refs node r → ⊥) }
    {
        let refs = self.refs.as_slice();
        let mut low = 0;
        let mut high = refs.len();
        while low < high {
            let middle = low + (high - low) / 2;
            let Some(entry) = at(refs, middle) else {
                return None;
            };
            let (number, reference) = *entry;
            if number == node {
                return Some(reference);
            }
            if number < node {
                low = middle + 1;
            } else {
                high = middle;
            }
        }
        None
    }

    /// What the type expression of this number names; `None` where it is neither a name nor a
    /// variable.
    #[tactic(auto, using(crate::proofs::Search::between_all, crate::proofs::Search::go_above, crate::proofs::Search::go_below, crate::proofs::Search::absent))]
    pub fn type_target(&self, id: u32) -> Option<TyRef>
        ensures some { IfSome result (Has self.now.types id) }
        ensures none { IfNone result ((r : TyRef) → Has self.now.types id r → ⊥) }
    {
        let types = self.types.as_slice();
        let mut low = 0;
        let mut high = types.len();
        while low < high {
            let middle = low + (high - low) / 2;
            let Some(entry) = at(types, middle) else {
                return None;
            };
            let (number, reference) = *entry;
            if number == id {
                return Some(reference);
            }
            if number < id {
                low = middle + 1;
            } else {
                high = middle;
            }
        }
        None
    }
}
