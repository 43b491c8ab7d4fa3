//! Predefined operations and the names of the prelude.

use super::Row;

pub const OPERATIONS: [Row; 12] = [
    (
        "let a = print_string and b = print_int and c = print_char and d = prerr_string",
        "string -> unit; int -> unit; char -> unit; string -> unit",
    ),
    ("let f = string_of_int", "int -> string"),
    (
        "let f = int_of_char and g = char_of_int",
        "char -> int; int -> char",
    ),
    ("let f = String.length", "string -> int"),
    ("let f = String.get", "string -> int -> char"),
    ("let f = String.get \"a\"", "int -> char"),
    ("let f = exit", "int -> 'a"),
    ("let f = failwith", "string -> 'a"),
    ("let f x = exit x", "int -> 'a"),
    ("let f x = 1 + failwith x", "string -> int"),
    ("let p = (exit, exit)", "(int -> 'a) * (int -> 'b)"),
    ("let f x = exit x 1 'a'", "int -> 'a"),
];

pub const PRELUDE_NAMES: [Row; 8] = [
    ("let f = not", "bool -> bool"),
    ("let f = fst", "'a * 'b -> 'a"),
    ("let f = snd", "'a * 'b -> 'b"),
    ("let f = ignore", "'a -> unit"),
    ("let f = print_newline", "unit -> unit"),
    ("let f = print_endline", "string -> unit"),
    ("let f = append__", "'a list -> 'a list -> 'a list"),
    (
        "let x = fst (1, 'a') let y = snd (1, 'a') let () = ignore x; ignore y",
        "int; char",
    ),
];

pub const SHADOWED: [Row; 6] = [
    ("let not x = x let y = not 1", "'a -> 'a; int"),
    (
        "let print_int x = [x] let y = print_int 'a'",
        "'a -> 'a list; char list",
    ),
    ("let append__ = 1 let l = [1] @ [2]", "int; int list"),
    (
        "type bool = A let x = A let f y = if y then x else x",
        "bool; bool -> bool",
    ),
    ("type t = None let x = None", "t"),
    (
        "type 'a list = A of 'a let x = A 1 let y = [A 2]",
        "int list; int list list",
    ),
];
