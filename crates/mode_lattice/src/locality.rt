ghost use Rattle.std.specs.Prelude.{◌≡◌, true};
ghost use Rattle.ml_tree.specs.declared.words.Loc.{Loc};
ghost use Rattle.mode_lattice.specs.Modes.{loc_leq, inwards_of, outwards_of, exclave_of, ExclaveKeeps};

use ml_tree::Loc;

/// What a value outside a function or a borrow is inside it: local and regional become regional.
pub fn inwards(l: Loc) -> Loc
    ensures { result ≡ inwards_of l }
{
    match l {
        Loc::Global => Loc::Global,
        Loc::Regional | Loc::Local => Loc::Regional,
    }
}

/// What a result inside a call is outside it: regional becomes local.
pub fn outwards(l: Loc) -> Loc
    ensures { result ≡ outwards_of l }
{
    match l {
        Loc::Global => Loc::Global,
        Loc::Regional | Loc::Local => Loc::Local,
    }
}

/// What a value outside an `exclave_` is inside it, where the region of the function is closed:
/// regional becomes local. `None` exactly at `Local`, which is gone with that region.
pub fn exclave(l: Loc) -> Option<Loc>
    ensures { result ≡ exclave_of l }
{
    match l {
        Loc::Global => Some(Loc::Global),
        Loc::Regional => Some(Loc::Local),
        Loc::Local => None,
    }
}

/// Laws: the three keep the order, and a value fits a place behind a boundary where its image
/// does: `inwards(a)` is at most `b` exactly where `a` is at most `outwards(b)`.
pub fn boundaries()
    ensures inwards { (a b : Loc) → loc_leq a b ≡ true → loc_leq (inwards_of a) (inwards_of b) ≡ true }
    ensures outwards { (a b : Loc) → loc_leq a b ≡ true → loc_leq (outwards_of a) (outwards_of b) ≡ true }
    ensures exclave { (a b : Loc) → loc_leq a b ≡ true → ExclaveKeeps (exclave_of a) (exclave_of b) }
    ensures adjoint { (a b : Loc) → loc_leq (inwards_of a) b ≡ loc_leq a (outwards_of b) }
{}
