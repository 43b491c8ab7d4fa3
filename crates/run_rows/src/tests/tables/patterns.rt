//! Patterns and names.

use super::Row;

/// Which arm is taken, and what fits none.
pub const PATTERNS: [Row; 10] = [
    (
        "type t = A | B of int let f x = match x with A -> 0 | B n -> n let () = print_int (f (B 3))",
        100,
        "E64 ( ) L64 E68 ( ) L68 E100 ( M2 E96 ( ) L96 \"3\" ) L100 =0",
    ),
    (
        "let f x = match x with 1 -> 2 let () = print_int (f 5)",
        100,
        "E68 ( ) L68 E92 ( E84 ( !\"Fatal error: exception Match_failure|\" =2",
    ),
    (
        "let f x = match x with n when n < 0 -> \"neg\" | 0 -> \"zero\" | _ -> \"pos\" let () = print_string (f 0)",
        100,
        "E68 ( ) L68 E92 ( E112 ( ) L112 \"zero\" ) L92 =0",
    ),
    (
        "let f x = match x with _ when (print_string \"g\"; false) -> 1 | _ -> 2 let () = print_int (f 0)",
        100,
        "E68 ( ) L68 E92 ( E116 ( \"g\" ) L116 \"2\" ) L92 =0",
    ),
    (
        "let f x = match x with (1 | 2) as n -> n | _ -> 0 let () = print_int (f 2)",
        100,
        "E68 ( ) L68 E92 ( E108 ( ) L108 \"2\" ) L92 =0",
    ),
    (
        "let (1, x) = (2, 3)",
        100,
        "E96 ( M3 !\"Fatal error: exception Match_failure|\" =2",
    ),
    (
        "let f (1, x) = x let () = print_int (f (2, 3))",
        100,
        "E68 ( ) L68 E104 ( M3 E80 ( !\"Fatal error: exception Match_failure|\" =2",
    ),
    (
        "let f = function 0 -> \"z\" | _ -> \"n\" let () = print_string (f 1)",
        100,
        "E72 ( ) L72 E92 ( E80 ( ) L80 \"n\" ) L92 =0",
    ),
    (
        "let f l = match l with [a; b] -> a + b | _ -> 0 let () = print_int (f [1; 2])",
        100,
        "E68 ( ) L68 E100 ( M3 M3 E108 ( ) L108 \"3\" ) L100 =0",
    ),
    (
        "type r = {a : int; b : int} let f x = match x with {a = _; b = y} -> y let () = print_int (f {a = 1; b = 2})",
        100,
        "E64 ( ) L64 E68 ( ) L68 E100 ( M3 E92 ( ) L92 \"2\" ) L100 =0",
    ),
];

/// Bindings beside and behind one another.
pub const NAMES: [Row; 4] = [
    (
        "let a = print_string \"a\" and b = print_string \"b\"",
        100,
        "E96 ( \"ba\" ) L96 =0",
    ),
    (
        "let () = let a = print_string \"a\" and b = print_string \"b\" in ()",
        100,
        "E108 ( \"ba\" ) L108 =0",
    ),
    (
        "let x = 1 let x = 2 let () = print_int x",
        100,
        "E72 ( ) L72 E72 ( ) L72 E80 ( \"2\" ) L80 =0",
    ),
    ("let x = (1 : int)", 100, "E76 ( ) L76 =0"),
];
