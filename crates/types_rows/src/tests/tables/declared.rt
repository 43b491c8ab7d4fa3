//! Values of declared types.

use super::Row;

/// Constructors, with one field and with several.
pub const CONSTRUCTORS: [Row; 24] = [
    ("type t = A | B of int let a = A let b = B 1", "t; t"),
    ("type t = P of int * string let p = P (1, \"a\")", "t"),
    (
        "type t = P of int * string let f x = P (x, \"a\")",
        "int -> t",
    ),
    (
        "type t = W of (int * string) let p = (1, \"a\") let w = W p",
        "int * string; t",
    ),
    ("type 'a t = A let a = A", "'a t"),
    ("type 'a t = A of int let a = A 1", "'a t"),
    (
        "type 'a t = A of 'a let a = A 1 let b = A a let f x = A x",
        "int t; int t t; 'a -> 'a t",
    ),
    (
        "type 'a t = P of 'a * 'a let p = P (1, 2) let f x y = P (x, y)",
        "int t; 'a -> 'a -> 'a t",
    ),
    (
        "type ('a, 'b) t = L of 'a | R of 'b let l = L 1 let r = R \"a\"",
        "(int, 'a) t; ('a, string) t",
    ),
    (
        "type ('a, 'b) t = P of 'b * 'a let f x y = P (x, y)",
        "'a -> 'b -> ('b, 'a) t",
    ),
    (
        "type ('a, 'b) t = L of 'a | R of 'b let f b = if b then L 1 else R 'b'",
        "bool -> (int, char) t",
    ),
    ("type 'a t = F of ('a -> 'a) let f = F (fun x -> x)", "'a t"),
    (
        "type 'a t = F of ('a -> int) let f g = F g",
        "('a -> int) -> 'a t",
    ),
    (
        "type t = A | B of int let f x = match x with A -> 0 | B n -> n",
        "t -> int",
    ),
    (
        "type t = P of int * string let f (P (a, b)) = b",
        "t -> string",
    ),
    ("type t = P of int * string let f (P _) = 1", "t -> int"),
    (
        "type 'a t = P of 'a * 'a let f (P (a, b)) = [a; b]",
        "'a t -> 'a list",
    ),
    (
        "type 'a t = L | N of 'a t * 'a * 'a t \
         let rec f t = match t with L -> 0 | N (l, x, r) -> f l + x + f r",
        "int t -> int",
    ),
    (
        "type 'a t = L | N of 'a t * 'a * 'a t \
         let rec f t = match t with L -> [] | N (l, x, r) -> f l @ (x :: f r)",
        "'a t -> 'a list",
    ),
    (
        "type a = A of b and b = B of a | C let f (A (B x)) = x",
        "a -> a",
    ),
    ("type t = A let x = A type u = B let y = (A, B)", "t; t * u"),
    ("let f x = Some (Some x)", "'a -> 'a option option"),
    (
        "let f x = match x with Some y -> y | None -> 0",
        "int option -> int",
    ),
    ("type t = A of int let f x = A (x + 1)", "int -> t"),
];

/// Lists.
pub const LISTS: [Row; 12] = [
    ("let l = [1; 2]", "int list"),
    ("let l = ['a']", "char list"),
    ("let l = 1 :: []", "int list"),
    ("let l = [[]; [1]]", "int list list"),
    ("let l = [[]]", "'a list list"),
    ("let f x l = x :: l", "'a -> 'a list -> 'a list"),
    ("let f x y = [x; y]", "'a -> 'a -> 'a list"),
    ("let l = [(1, 'a'); (2, 'b')]", "(int * char) list"),
    ("let f x = [Some x; None]", "'a -> 'a option list"),
    (
        "let rec f l = match l with [] -> 0 | _ :: t -> 1 + f t",
        "'a list -> int",
    ),
    (
        "let rec f g l = match l with [] -> [] | h :: t -> g h :: f g t",
        "('a -> 'b) -> 'a list -> 'b list",
    ),
    (
        "let rec f g a l = match l with [] -> a | h :: t -> f g (g a h) t",
        "('a -> 'b -> 'a) -> 'a -> 'b list -> 'a",
    ),
];

/// Records.
pub const RECORDS: [Row; 15] = [
    (
        "type r = {a : int; b : string} let x = {a = 1; b = \"x\"}",
        "r",
    ),
    (
        "type r = {a : int; b : string} let x = {b = \"x\"; a = 1}",
        "r",
    ),
    (
        "type r = {a : int; b : string} let f x = x.b",
        "r -> string",
    ),
    (
        "type r = {a : int; b : string} let f y = {b = y; a = 1}",
        "string -> r",
    ),
    (
        "type 'a r = {v : 'a} let x = {v = 1} let f y = y.v",
        "int r; 'a r -> 'a",
    ),
    (
        "type ('a, 'b) r = {p : 'b; q : 'a list} let f x y = {p = x; q = [y]}",
        "'a -> 'b -> ('b, 'a) r",
    ),
    (
        "type r = {a : int; b : string} let f ({a = x; b = y}) = y",
        "r -> string",
    ),
    (
        "type r = {a : int; b : string} let f ({b = y; _}) = y",
        "r -> string",
    ),
    ("type r = {a : int} let f a = {a}", "int -> r"),
    ("type r = {a : int} let f ({a}) = a", "r -> int"),
    (
        "type 'a r = {v : 'a; w : 'a} let f x = [x.v; x.w]",
        "'a r -> 'a list",
    ),
    ("type 'a r = {v : 'a} let f x = x.v.v", "'a r r -> 'a"),
    ("type r = {f : int -> int} let g x = x.f 1", "r -> int"),
    (
        "type r = {global_ a : int; many_ b : char} let f x = (x.b, x.a)",
        "r -> char * int",
    ),
    (
        "type 'a r = {v : 'a option} let f x = match x with {v = Some y} -> y | {v = None} -> 1",
        "int r -> int",
    ),
];
