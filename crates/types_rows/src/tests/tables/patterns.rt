//! The types that patterns give.

use super::Row;

pub const PATTERNS: [Row; 29] = [
    ("let f x = match x with 1 -> 'a' | _ -> 'b'", "int -> char"),
    ("let f x = match x with 'a' -> 1 | _ -> 2", "char -> int"),
    (
        "let f x = match x with \"a\" -> 1 | _ -> 2",
        "string -> int",
    ),
    (
        "let f x = match x with true -> 1 | false -> 2",
        "bool -> int",
    ),
    ("let f x = match x with () -> 1", "unit -> int"),
    ("let f x = match x with -1 -> 1 | _ -> 2", "int -> int"),
    ("let f x = match x with y -> y", "'a -> 'a"),
    ("let f x = match x with _ -> x", "'a -> 'a"),
    ("let f x = match x with (a, b) -> a", "'a * 'b -> 'a"),
    (
        "let f x = match x with (1, b) -> b | (_, c) -> c",
        "int * 'a -> 'a",
    ),
    ("let f x = match x with [] -> 1 | _ -> 2", "'a list -> int"),
    (
        "let f x = match x with [a; b] -> a | _ -> 'c'",
        "char list -> char",
    ),
    (
        "let f x = match x with a :: _ -> a | [] -> 1",
        "int list -> int",
    ),
    (
        "let f x = match x with a :: b :: t -> t | t -> t",
        "'a list -> 'a list",
    ),
    (
        "let f x = match x with 1 | 2 -> 'a' | _ -> 'b'",
        "int -> char",
    ),
    (
        "let f x = match x with Some (true | false) | None -> 1",
        "bool option -> int",
    ),
    (
        "let f x = match x with (a, b) as p -> (p, b)",
        "'a * 'b -> ('a * 'b) * 'b",
    ),
    ("let f (x as y) = (y, x)", "'a -> 'a * 'a"),
    (
        "let f x = match x with (_ as y) as z -> (y, z)",
        "'a -> 'a * 'a",
    ),
    ("let f x = match x with (y : int) -> y", "int -> int"),
    (
        "let f x = match x with Some (y : 'a) -> y | None -> 1",
        "int option -> int",
    ),
    (
        "let f x = match x with n when n > 0 -> n | _ -> 0",
        "int -> int",
    ),
    (
        "let f x y = match x with n when y -> n | m -> m",
        "'a -> bool -> 'a",
    ),
    ("let f = function 0 -> \"z\" | _ -> \"n\"", "int -> string"),
    (
        "let f = function Some x -> x | None -> 1",
        "int option -> int",
    ),
    ("let f = function x when x -> 1 | _ -> 2", "bool -> int"),
    (
        "let f = function (x, _) -> function y -> [x; y]",
        "'a * 'b -> 'a -> 'a list",
    ),
    ("let f ((x, y), z) = x + z", "(int * 'a) * int -> int"),
    (
        "let f (local_ (x, unique_ y)) = (y, x)",
        "'a * 'b -> 'b * 'a",
    ),
];
