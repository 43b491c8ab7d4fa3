use crate::{Lattice, Mode, boundaries, exclave, inwards, outwards};
use ml_tree::{Aff, Loc, Uni};

#[test]
fn localities(rt: HostRuntime) {
    boundaries();
    let cases = [
        (Loc::Global, Loc::Global, Loc::Global, Some(Loc::Global)),
        (Loc::Regional, Loc::Regional, Loc::Local, Some(Loc::Local)),
        (Loc::Local, Loc::Regional, Loc::Local, None),
    ];
    for (l, inside, outside, past) in cases {
        assert_eq!(rt; inwards(l), inside);
        assert_eq!(rt; outwards(l), outside);
        assert_eq!(rt; exclave(l), past);
    }
}

#[test]
fn modes(rt: HostRuntime) {
    let fresh = Mode {
        loc: Loc::Regional,
        uni: Uni::Unique,
        aff: Aff::Once,
    };
    let global = Mode {
        loc: Loc::Global,
        uni: Uni::Shared,
        aff: Aff::Many,
    };
    let join = Mode {
        loc: Loc::Regional,
        uni: Uni::Shared,
        aff: Aff::Once,
    };
    let meet = Mode {
        loc: Loc::Global,
        uni: Uni::Unique,
        aff: Aff::Many,
    };
    assert_eq!(rt; fresh.join(global), join);
    assert_eq!(rt; fresh.meet(global), meet);
    assert!(rt; meet.leq(fresh) && global.leq(join) && !fresh.leq(global) && !global.leq(fresh));
}
