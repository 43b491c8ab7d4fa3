//! Blocks and regions.

use super::Row;

/// Tuples, lists, records and constructors with their words.
pub const BLOCKS: [Row; 10] = [
    ("let p = (1, 2)", 100, "E84 ( M3 ) L84 =0"),
    (
        "let l = [print_string \"x\"; print_string \"y\"]",
        100,
        "E96 ( \"y\" M3 \"x\" M3 ) L96 =0",
    ),
    ("let l = 1 :: 2 :: []", 100, "E88 ( M3 M3 ) L88 =0"),
    (
        "type r = {a : int; b : int} let x = {b = 1; a = 2}",
        100,
        "E64 ( ) L64 E80 ( M3 ) L80 =0",
    ),
    (
        "type r = {a : unit; b : unit} let x = {b = print_string \"b\"; a = print_string \"a\"}",
        100,
        "E64 ( ) L64 E96 ( \"ab\" M3 ) L96 =0",
    ),
    (
        "type r = {a : int} let x = {a = 7} let () = print_int x.a",
        100,
        "E64 ( ) L64 E76 ( M2 ) L76 E84 ( \"7\" ) L84 =0",
    ),
    (
        "type r = {a : int; b : int} let x = {b = 1; a = 2} let () = print_int x.b",
        100,
        "E64 ( ) L64 E80 ( M3 ) L80 E84 ( \"1\" ) L84 =0",
    ),
    (
        "type t = A | B of int * int let x = B (1, 2)",
        100,
        "E64 ( ) L64 E88 ( M3 ) L88 =0",
    ),
    (
        "type t = P of (int * int) let x = P (1, 2)",
        100,
        "E64 ( ) L64 E88 ( M3 M2 ) L88 =0",
    ),
    (
        "let l = [1] @ [2]",
        100,
        "E88 ( M3 M3 E124 ( E124 ( ) L124 M3 ) L124 ) L88 =0",
    ),
];

/// Regions of borrows and of `exclave_`, and an overwrite.
pub const REGIONS: [Row; 4] = [
    (
        "let f x = let borrow_ y = x in print_int y let () = f 4",
        100,
        "E68 ( ) L68 E80 ( E84 ( ( \"4\" ) ) L84 ) L80 =0",
    ),
    (
        "let f x = exclave_ (x, x) let p = f 1",
        100,
        "E68 ( ) L68 E80 ( E88 ( ) M3 L88 ) L80 =0",
    ),
    (
        "let g x = x let f x = exclave_ g x let y = f 1",
        100,
        "E68 ( ) L68 E68 ( ) L68 E80 ( E84 ( ) E72 ( ) L72 L84 ) L80 =0",
    ),
    (
        "let f x = match x with Some n -> overwrite_ x with Some (n + 1) | None -> None let r = f (Some 1)",
        100,
        "E68 ( ) L68 E88 ( M2 E116 ( V2 ) L116 ) L88 =0",
    ),
];
