//! Small sources and the first violation of rules 30 to 33 in each, worked out by hand.

use crate::rows::Case;

/// Rule 30: at the whole type expression, in declarations and in annotations.
pub const ARGUMENTS: [Case; 31] = [
    ("type u = list", "rule 30 9 13"),
    ("type u = int int", "rule 30 9 16"),
    ("type u = (int, int) list", "rule 30 9 24"),
    ("type u = list list", "rule 30 9 13"),
    ("type u = list int", "rule 30 9 13"),
    ("type u = int list int", "rule 30 9 21"),
    ("type u = list -> int", "rule 30 9 13"),
    ("type u = int -> unit option option unit", "rule 30 16 39"),
    ("type u = int * option", "rule 30 15 21"),
    ("type t = A of list", "rule 30 14 18"),
    ("type t = A of int * option", "rule 30 20 26"),
    ("type t = A | B of bool bool | C of list", "rule 30 18 27"),
    ("type r = {f : int; g : string string}", "rule 30 23 36"),
    ("type 'a p = A type u = p", "rule 30 23 24"),
    ("type 'a p = A type u = (int, int) p", "rule 30 23 35"),
    ("type ('a, 'b) p = A type u = int p", "rule 30 29 34"),
    ("type 'a t = A of t", "rule 30 17 18"),
    ("type t = A of int t", "rule 30 14 19"),
    ("type 'a t = A of u and 'b u = B", "rule 30 17 18"),
    ("type 'a s = 'a list type u = s", "rule 30 29 30"),
    ("type list = A type t = B of int list", "rule 30 28 36"),
    ("type 'a int = A type t = B of int", "rule 30 30 33"),
    ("let x = (1 : int int)", "rule 30 13 20"),
    ("let f (x : list) = x", "rule 30 11 15"),
    ("let f x : option = x", "rule 30 10 16"),
    ("let f = fun (x : unit unit) -> x", "rule 30 17 26"),
    ("let f x = match x with (y : list) -> y", "rule 30 28 32"),
    (
        "let f x = match x with Some (_ : list) | None -> 1",
        "rule 30 33 37",
    ),
    ("let x = let (y : char char) = 'a' in y", "rule 30 17 26"),
    (
        "let f x = if x then (x : bool bool) else x",
        "rule 30 25 34",
    ),
    (
        "type r = {g : int} let f x = {g = (x : list)}",
        "rule 30 39 43",
    ),
];

/// Rule 31: at the variable, in declarations alone.
pub const VARIABLES: [Case; 11] = [
    ("type t = 'a list", "rule 31 9 11"),
    ("type t = A of 'a", "rule 31 14 16"),
    ("type t = {f : 'a}", "rule 31 14 16"),
    ("type 'a t = 'b * 'a", "rule 31 12 14"),
    ("type 'a t = 'a -> 'b", "rule 31 18 20"),
    ("type ('a, 'b) t = A of 'b * 'a * 'c", "rule 31 33 35"),
    ("type 'a t = A of 'a and u = B of 'a", "rule 31 33 35"),
    ("type 'a t = A of 'a type u = B of 'a", "rule 31 34 36"),
    ("let f (x : 'a) = x type t = A of 'a", "rule 31 33 35"),
    ("type t = 'a int", "rule 30 9 15"),
    ("type t = 'a list * list", "rule 31 9 11"),
];

/// Rule 32: at the name itself, each kind on its own.
pub const TWICE: [Case; 15] = [
    ("type t = A type t = B", "rule 32 16 17"),
    ("type t = A and t = B", "rule 32 15 16"),
    ("type t = A type u = B type t = A", "rule 32 27 28"),
    ("type t = A | A", "rule 32 13 14"),
    ("type t = A type u = A", "rule 32 20 21"),
    ("type t = A type u = B | A of int", "rule 32 24 25"),
    ("type r = {f : int; f : int}", "rule 32 19 20"),
    (
        "type r = {f : int} type s = {g : int; f : int}",
        "rule 32 38 39",
    ),
    ("type int = A type int = B", "rule 32 18 21"),
    ("type t = Some type u = Some", "rule 32 23 27"),
    ("type r = {f : int} type 'a r = 'a", "rule 32 27 28"),
    ("type t = A type t = t", "rule 32 16 17"),
    ("type t = list type t = A", "rule 30 9 13"),
    ("type t = A type t = list", "rule 32 16 17"),
    ("type t = A\ntype u = A", "rule 32 20 21"),
];

/// Rule 33: at the name of an abbreviation whose body reaches it through abbreviations.
pub const RINGS: [Case; 17] = [
    ("type t = t", "rule 33 5 6"),
    ("type t = t list", "rule 33 5 6"),
    ("type t = int -> t", "rule 33 5 6"),
    ("type t = int * t", "rule 33 5 6"),
    ("type 'a t = 'a t", "rule 33 8 9"),
    ("type 'a t = int t", "rule 33 8 9"),
    ("type int = int", "rule 33 5 8"),
    ("type a = b and b = a", "rule 33 5 6"),
    ("type a = b\nand b = a", "rule 33 5 6"),
    ("type a = b and b = c and c = a", "rule 33 5 6"),
    ("type a = b and b = b", "rule 33 15 16"),
    ("type a = b and b = c and c = b", "rule 33 15 16"),
    ("type a = b -> int and b = int * a", "rule 33 5 6"),
    ("type 'a s = 'a u and 'a u = 'a s", "rule 33 8 9"),
    ("type a = a v and 'a v = A of 'a", "rule 33 5 6"),
    (
        "type u = int type a = u * b and b = a list",
        "rule 33 18 19",
    ),
    ("type a = b and 'a b = a", "rule 33 5 6"),
];

/// What no rule is against.
pub const DECLARED: [Case; 21] = [
    ("", "declared"),
    ("let x = 1", "declared"),
    ("type u = int list", "declared"),
    ("type u = int list list option", "declared"),
    (
        "type ('a, 'b) p = A of 'b * 'a type u = (int, string) p",
        "declared",
    ),
    ("type 'a t = A", "declared"),
    ("type 'a t = A of 'a t", "declared"),
    ("let f (x : 'a) : 'a list = [x]", "declared"),
    ("let f (x : 'a) (y : 'b) = x", "declared"),
    ("type t = {t : int} let t = 1", "declared"),
    ("type t = A type u = B of t let a = A", "declared"),
    ("type int = A", "declared"),
    ("type list = A let x = (A : list)", "declared"),
    ("type t = None | Some of int", "declared"),
    ("type a = int type b = a type c = b", "declared"),
    ("type a = b and b = A of a", "declared"),
    ("type a = r and r = {f : a}", "declared"),
    ("type a = b list and b = B of a", "declared"),
    ("type t = A type u = t", "declared"),
    ("type a = b and b = c and c = int", "declared"),
    ("type t = A of (int -> t) * t", "declared"),
];
