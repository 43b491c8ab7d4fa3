ghost use Rattle.std.specs.Prelude.{◌≡◌, Bool};
ghost use Rattle.mode_lattice.specs.Lattices.{IsLattice};
ghost use Rattle.mode_lattice.specs.Modes.{loc_leq, loc_join, loc_meet, loc_laws, uni_leq, uni_join, uni_meet, uni_laws, aff_leq, aff_join, aff_meet, aff_laws};

use ml_tree::{Aff, Loc, Uni};

/// An order in which each two values have a least upper bound and a greatest lower bound.
pub trait Lattice: Copy {
    ghost leq: { Self → Self → Bool };

    ghost join: { Self → Self → Self };

    ghost meet: { Self → Self → Self };

    /// Whether the value is the other or below it.
    fn leq(self, other: Self) -> bool
        ensures { result ≡ leq self other };

    /// The least value that neither of the two is above.
    fn join(self, other: Self) -> Self
        ensures { result ≡ join self other };

    /// The greatest value that is above neither of the two.
    fn meet(self, other: Self) -> Self
        ensures { result ≡ meet self other };

    ghost laws: { IsLattice leq join meet };
}

/// global < regional < local.
impl Lattice for Loc {
    ghost leq = { loc_leq };

    ghost join = { loc_join };

    ghost meet = { loc_meet };

    ghost laws = { loc_laws };

    fn leq(self, other: Loc) -> bool {
        match self {
            Loc::Global => true,
            Loc::Regional => other != Loc::Global,
            Loc::Local => other == Loc::Local,
        }
    }

    fn join(self, other: Loc) -> Loc {
        if self.leq(other) { other } else { self }
    }

    fn meet(self, other: Loc) -> Loc {
        if self.leq(other) { self } else { other }
    }
}

/// unique < shared.
impl Lattice for Uni {
    ghost leq = { uni_leq };

    ghost join = { uni_join };

    ghost meet = { uni_meet };

    ghost laws = { uni_laws };

    fn leq(self, other: Uni) -> bool {
        self == Uni::Unique || other == Uni::Shared
    }

    fn join(self, other: Uni) -> Uni {
        if self.leq(other) { other } else { self }
    }

    fn meet(self, other: Uni) -> Uni {
        if self.leq(other) { self } else { other }
    }
}

/// many < once.
impl Lattice for Aff {
    ghost leq = { aff_leq };

    ghost join = { aff_join };

    ghost meet = { aff_meet };

    ghost laws = { aff_laws };

    fn leq(self, other: Aff) -> bool {
        self == Aff::Many || other == Aff::Once
    }

    fn join(self, other: Aff) -> Aff {
        if self.leq(other) { other } else { self }
    }

    fn meet(self, other: Aff) -> Aff {
        if self.leq(other) { self } else { other }
    }
}
