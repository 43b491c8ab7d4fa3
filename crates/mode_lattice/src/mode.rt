use crate::lattice::Lattice;
use ml_tree::{Aff, Loc, Uni};

/// Where a value may go, how many pointers to it there may be, and how often it may be used.
#[derive(Clone, Copy, Debug, PartialEq, Eq)]
pub struct Mode {
    pub loc: Loc,
    pub uni: Uni,
    pub aff: Aff,
}

/// Ordered in each part.
impl Lattice for Mode {
    ghost use Rattle.mode_lattice.specs.ModeLattice.{mode_leq, mode_join, mode_meet, mode_laws};

    ghost leq = { mode_leq };

    ghost join = { mode_join };

    ghost meet = { mode_meet };

    ghost laws = { mode_laws };

    fn leq(self, other: Mode) -> bool {
        self.loc.leq(other.loc) && self.uni.leq(other.uni) && self.aff.leq(other.aff)
    }

    fn join(self, other: Mode) -> Mode {
        Mode {
            loc: self.loc.join(other.loc),
            uni: self.uni.join(other.uni),
            aff: self.aff.join(other.aff),
        }
    }

    fn meet(self, other: Mode) -> Mode {
        Mode {
            loc: self.loc.meet(other.loc),
            uni: self.uni.meet(other.uni),
            aff: self.aff.meet(other.aff),
        }
    }
}
