//! Written types.

use super::Row;

/// Annotations, and their variables, which stand for some type in the whole item.
pub const ANNOTATIONS: [Row; 28] = [
    ("let x = (1 : int)", "int"),
    ("let x : int = 1", "int"),
    ("let (x : char) = 'a'", "char"),
    ("let p : int * string = (1, \"a\")", "int * string"),
    ("let f (x : int) = x", "int -> int"),
    ("let f x : int = x", "int -> int"),
    ("let f x y : bool = y", "'a -> bool -> bool"),
    ("let f = fun (x : string) -> x", "string -> string"),
    ("let f : int -> int = fun x -> x", "int -> int"),
    (
        "let f : int -> 'a -> int = fun x y -> x",
        "int -> 'a -> int",
    ),
    ("let l = ([] : int list)", "int list"),
    (
        "let l : (char * bool) list option = None",
        "(char * bool) list option",
    ),
    ("let f (x : 'a) (y : 'a) = x", "'a -> 'a -> 'a"),
    ("let f (x : 'a) (y : 'b) = x", "'a -> 'b -> 'a"),
    ("let f (x : 'b) (y : 'a) = y", "'a -> 'b -> 'b"),
    ("let f (x : 'a) (y : 'b) = [x; y]", "'a -> 'a -> 'a list"),
    ("let f (x : 'a) = (x + 1 : 'a)", "int -> int"),
    ("let f (x : 'a list) = x", "'a list -> 'a list"),
    ("let f x : 'a -> 'a = fun y -> y", "'a -> 'b -> 'b"),
    (
        "let f x = let g (y : 'a) = y in (g x, (x : 'a))",
        "'a -> 'a * 'a",
    ),
    (
        "let f (x : 'a) = x and g (y : 'a) = y + 1",
        "int -> int; int -> int",
    ),
    (
        "let f (x : 'a) = x let g (y : 'a) = y + 1",
        "'a -> 'a; int -> int",
    ),
    (
        "let f (x : 'a) = x and g (y : 'a) = [y]",
        "'a -> 'a; 'a -> 'a list",
    ),
    (
        "let f (g : local_ int -> unique_ char) = g 1",
        "(int -> char) -> char",
    ),
    (
        "let f (g : (int -> char) -> bool) = g",
        "((int -> char) -> bool) -> (int -> char) -> bool",
    ),
    (
        "type 'a t = A of 'a let f (A x : 'a t) = (x : 'a)",
        "'a t -> 'a",
    ),
    (
        "type 'a t = A of 'a let f (x : char t) = x",
        "char t -> char t",
    ),
    (
        "type ('a, 'b) t = A let f (x : (int, 'a) t) = x",
        "(int, 'a) t -> (int, 'a) t",
    ),
];

/// Abbreviations, which no type has.
pub const ABBREVIATIONS: [Row; 25] = [
    ("type t = int let f (x : t) = x", "int -> int"),
    ("type t = int let x : t = 1 let y = x + 1", "int; int"),
    (
        "type t = int list option let f (x : t) = x",
        "int list option -> int list option",
    ),
    (
        "type 'a p = 'a * 'a let f (x : int p) = x",
        "int * int -> int * int",
    ),
    (
        "type 'a p = 'a * 'a let f (x : 'b p) = x",
        "'a * 'a -> 'a * 'a",
    ),
    (
        "type 'a p = 'a * 'a let f (x : char p p) = fst x",
        "(char * char) * (char * char) -> char * char",
    ),
    (
        "type ('a, 'b) f = 'b -> 'a let g (x : (int, string) f) = x \"a\"",
        "(string -> int) -> int",
    ),
    (
        "type 'a l = 'a list list let f (x : 'a l) = x",
        "'a list list -> 'a list list",
    ),
    (
        "type a = int list type b = a option let f (x : b) = x",
        "int list option -> int list option",
    ),
    (
        "type a = b list and b = int * char let f (x : a) = x",
        "(int * char) list -> (int * char) list",
    ),
    // The second parameter comes to nothing.
    ("type 'a c = int let f (x : string c) = x + 1", "int -> int"),
    (
        "type 'a c = int let f (x : 'a c) (y : 'a) = x",
        "int -> 'a -> int",
    ),
    (
        "type ('a, 'b) c = 'b list let f (x : (int, char) c) = x",
        "char list -> char list",
    ),
    (
        "type ('a, 'b) c = 'a let f (x : (int, 'b) c) (y : 'b) = y + x",
        "int -> int -> int",
    ),
    ("type t = int type u = A of t let f (A n) = n", "u -> int"),
    (
        "type 'a p = 'a * 'a type 'a t = A of 'a p let f x = A (x, 1)",
        "int -> int t",
    ),
    (
        "type 'a p = 'a * 'a type 'a r = {v : 'a p} let f x = x.v",
        "'a r -> 'a * 'a",
    ),
    (
        "type t = int * char type u = A of t let f x y = A (x, y)",
        "int -> char -> u",
    ),
    ("type t = A type u = t let x : u = A", "t"),
    (
        "type t = int type u = A of t let f (A n) = n + 1",
        "u -> int",
    ),
    (
        "type t = int type r = {v : t} let f x = x.v + 1",
        "r -> int",
    ),
    (
        "type t = int type u = t let f (x : u) = x + 1",
        "int -> int",
    ),
    (
        "type t = int -> int type 'a u = A of (t -> 'a) let f (A g) = g (fun x -> x)",
        "'a u -> 'a",
    ),
    (
        "type 'a c = int type 'a u = A of 'a c let f x = A (x + 1)",
        "int -> 'a u",
    ),
    (
        "type 'a o = 'a option let f (x : int o) = match x with Some n -> n | None -> 0",
        "int option -> int",
    ),
];
