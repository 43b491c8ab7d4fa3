//! Items with several names, recursive ones, and names that are bound inside an item.

use super::Row;

/// Items with several names, and with none.
pub const SEVERAL: [Row; 15] = [
    ("let _ = 1", ""),
    ("let () = ()", ""),
    ("type t = A", ""),
    ("let a = 1 and b = 'b'", "int; char"),
    ("let (a, b) = (1, 'b')", "int; char"),
    ("let (a, (b, c)) = ('a', (1, true))", "char; int; bool"),
    ("let ((a, b) as p) = (1, 'b')", "int * char; int; char"),
    (
        "let (a, b) = (fun x -> x), (fun y -> [y])",
        "'a -> 'a; 'a -> 'a list",
    ),
    ("let (f, g) = let h x = x in (h, h)", "'a -> 'a; 'a -> 'a"),
    (
        "let (f, g) = let h x = x in (h, h) let p = (f 1, f 'a', g \"s\")",
        "'a -> 'a; 'a -> 'a; int * char * string",
    ),
    ("let [a; b] = [1; 2]", "int; int"),
    ("let (h :: t) = [1]", "int; int list"),
    ("let Some x = Some 'a'", "char"),
    (
        "type r = {a : int; b : char} let {b = x; a = y} = {a = 1; b = 'b'}",
        "char; int",
    ),
    ("let f x = x and g x = [x]", "'a -> 'a; 'a -> 'a list"),
];

/// Recursive items: a name has one type inside its item, and any instance of it behind.
pub const RECURSIVE: [Row; 12] = [
    ("let rec f x = f x", "'a -> 'b"),
    ("let rec f x = x", "'a -> 'a"),
    ("let rec f n = if n = 0 then 0 else f (n - 1)", "int -> int"),
    ("let rec f x y = f y x", "'a -> 'a -> 'b"),
    ("let rec f x = g x and g x = f x", "'a -> 'b; 'a -> 'b"),
    ("let rec f x = g x and g x = x", "'a -> 'a; 'a -> 'a"),
    (
        "let rec e n = if n = 0 then true else o (n - 1) \
         and o n = if n = 0 then false else e (n - 1)",
        "int -> bool; int -> bool",
    ),
    // Inside the item the second function has one type.
    ("let rec f x = x and g y = f 1", "int -> int; 'a -> int"),
    (
        "let rec f x = x let g y = (f 1, f 'a')",
        "'a -> 'a; 'a -> int * char",
    ),
    ("let rec f = fun x -> f x", "'a -> 'b"),
    (
        "let rec f = function 0 -> [] | n -> n :: f (n - 1)",
        "int -> int list",
    ),
    ("let rec f = (fun x -> x)", "'a -> 'a"),
];

/// Names that are bound inside an item are not generalised; the item is, as a whole.
pub const LOCALS: [Row; 10] = [
    ("let x = let id y = y in id 1", "int"),
    ("let f = let id y = y in id", "'a -> 'a"),
    (
        "let f x = let g = fun y -> (x, y) in g",
        "'a -> 'b -> 'a * 'b",
    ),
    ("let f x = let g = fun y -> (x, y) in g x", "'a -> 'a * 'a"),
    ("let p = let id y = y in (id, id 1)", "(int -> int) * int"),
    (
        "let f x = let l = [] in (x :: l, l)",
        "'a -> 'a list * 'a list",
    ),
    (
        "let f x = let x = (x, x) in let x = [x] in x",
        "'a -> ('a * 'a) list",
    ),
    ("let x = let x = 1 in let x = 'a' in x", "char"),
    (
        "let f x = let rec g y = if y = x + 1 then y else g x in g",
        "int -> int -> int",
    ),
    ("let f x = let rec g y = g x in g", "'a -> 'a -> 'b"),
];
