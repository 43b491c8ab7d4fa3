//! Patterns in the places where an expression has them, with their trees.

use crate::tables::Case;

/// Each kind of pattern, each level beside the next.
pub const PATTERNS: [Case; 25] = [
    ("let x = function _ -> 1", "(let [x = (function | _ -> 1)])"),
    (
        "let x = function -1 -> 1 | 'a' -> 2 | \"b\" -> 3",
        "(let [x = (function | -1 -> 1 | #97 -> 2 | \"b\" -> 3)])",
    ),
    (
        "let x = function a :: b :: c -> d",
        "(let [x = (function | (:: a (:: b c)) -> d)])",
    ),
    (
        "let x = function A | B -> c",
        "(let [x = (function | (| A B) -> c)])",
    ),
    (
        "let x = function A a, b as c -> d",
        "(let [x = (function | (as (, (A a) b) c) -> d)])",
    ),
    (
        "let x = function [a; b;] -> c",
        "(let [x = (function | [ a b] -> c)])",
    ),
    (
        "let x = function {f = a; _} -> c",
        "(let [x = (function | { f=a _} -> c)])",
    ),
    (
        "let x = function (a) -> b",
        "(let [x = (function | <a> -> b)])",
    ),
    (
        "let x = function () -> b | [] -> c | true -> d",
        "(let [x = (function | () -> b | [] -> c | true -> d)])",
    ),
    (
        "let x = function Some local_ a -> b",
        "(let [x = (function | (Some local_ a) -> b)])",
    ),
    (
        "let x = fun (unique_ a) (local_ (A b)) -> c",
        "(let [x = (fun unique_ a local_ <(A b)> -> c)])",
    ),
    ("let () = ()", "(let [() = ()])"),
    (
        "let x = function A (a, b) -> c",
        "(let [x = (function | (A <(, a b)>) -> c)])",
    ),
    (
        "let x = function A -1 -> a | B [] -> b",
        "(let [x = (function | (A -1) -> a | (B []) -> b)])",
    ),
    (
        "let x = function A a :: b -> c",
        "(let [x = (function | (:: (A a) b) -> c)])",
    ),
    (
        "let x = function a :: b, c :: d -> e",
        "(let [x = (function | (, (:: a b) (:: c d)) -> e)])",
    ),
    (
        "let x = function (a, b | c, d) -> e",
        "(let [x = (function | <(| (, a b) (, c d))> -> e)])",
    ),
    (
        "let x = function (a | b | c) -> d",
        "(let [x = (function | <(| (| a b) c)> -> d)])",
    ),
    (
        "let x = function A | B as c -> d",
        "(let [x = (function | (as (| A B) c) -> d)])",
    ),
    (
        "let x = function a as b as c -> d",
        "(let [x = (function | (as (as a b) c) -> d)])",
    ),
    (
        "let x = function (a : int list) -> b",
        "(let [x = (function | (: a (list (int))) -> b)])",
    ),
    (
        "let x = function {f; g = a, b;} -> c",
        "(let [x = (function | { f=f g=(, a b)} -> c)])",
    ),
    (
        "let x = function [a, b; _] -> c",
        "(let [x = (function | [ (, a b) _] -> c)])",
    ),
    (
        "let x = function global_ shared_ once_ a -> b",
        "(let [x = (function | global_ shared_ once_ a -> b)])",
    ),
    (
        "let x = function false -> a | None -> b",
        "(let [x = (function | false -> a | None -> b)])",
    ),
];
