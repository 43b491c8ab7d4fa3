//! Applications and prefixes, with their trees.

use crate::tables::Case;

/// Applications, constructors with an argument, prefixes.
pub const APPLIED: [Case; 31] = [
    ("let x = f y", "(let [x = (@ f y)])"),
    ("let x = f y z", "(let [x = (@ f y z)])"),
    ("let x = f y.g z", "(let [x = (@ f (.g y) z)])"),
    ("let x = (f y) z", "(let [x = (@ <(@ f y)> z)])"),
    ("let x = A y", "(let [x = (A y)])"),
    ("let x = A (y, z)", "(let [x = (A <(, y z)>)])"),
    ("let x = A y.f", "(let [x = (A (.f y))])"),
    ("let x = f A (1)", "(let [x = (@ f A <1>)])"),
    ("let x = (A) y z", "(let [x = (@ <A> y z)])"),
    ("let x = M.f y", "(let [x = (@ M.f y)])"),
    ("let x = A.[0] y", "(let [x = (@ (.[] A 0) y)])"),
    ("let x = true y", "(let [x = (@ true y)])"),
    ("let x = f () []", "(let [x = (@ f () [])])"),
    ("let x = f begin y end", "(let [x = (@ f <y>)])"),
    ("let x = f {g = 1}", "(let [x = (@ f { g=1})])"),
    ("let x = - f y", "(let [x = (- (@ f y))])"),
    ("let x = - - y", "(let [x = (- (- y))])"),
    ("let x = -1", "(let [x = (- 1)])"),
    (
        "let x = local_ unique_ once_ y",
        "(let [x = (local_ (unique_ (once_ y)))])",
    ),
    (
        "let x = global_ shared_ many_ - y",
        "(let [x = (global_ (shared_ (many_ (- y))))])",
    ),
    (
        "let x = overwrite_ y with A z",
        "(let [x = (overwrite_ y (A z))])",
    ),
    (
        "let x = overwrite_ y with (a :: b)",
        "(let [x = (overwrite_ y <(:: a b)>)])",
    ),
    (
        "let x = f 1 'c' \"s\" true B",
        "(let [x = (@ f 1 #99 \"s\" true B)])",
    ),
    (
        "let x = f [y] {g} y.[0]",
        "(let [x = (@ f [ y] { g=g} (.[] y 0))])",
    ),
    ("let x = A (B (C y))", "(let [x = (A <(B <(C y)>)>)])"),
    ("let x = A B", "(let [x = (A B)])"),
    ("let x = A [y; z]", "(let [x = (A [ y z])])"),
    ("let x = local_ local_ y", "(let [x = (local_ (local_ y))])"),
    ("let x = local_ f y", "(let [x = (local_ (@ f y))])"),
    (
        "let x = - overwrite_ y with A z",
        "(let [x = (- (overwrite_ y (A z)))])",
    ),
    (
        "let x = overwrite_ y with A (z, w)",
        "(let [x = (overwrite_ y (A <(, z w)>))])",
    ),
];
