//! Comparisons at types that have none, and at those that have.

use super::Row;

/// Rule 42 at the first comparison whose operands have another type.
pub const BAD: [&str; 31] = [
    "let eq x y = $x = y$",
    "let f x = $x <> x$",
    "let f g = $g = (fun x -> x)$",
    "let b = $print_int = print_int$",
    "let b = $(fun x -> x + 1) < (fun x -> x)$",
    "let b = $[1] = [1]$",
    "let b = $[] = []$",
    "let b = $(1, 2) >= (1, 2)$",
    "let b = $Some 1 > None$",
    "type t = A | B let b = $A = B$",
    "type t = A of int let b = $A 1 <= A 2$",
    "type r = {a : int} let f x = $x = {a = 1}$",
    "type t = int list let f (x : t) (y : t) = $x = y$",
    "type int = A let b = $A = A$",
    "let b = $exit 1 = exit 2$",
    "let f (x : 'a) (y : 'a) = $x = y$",
    "let f x y = let b = $x = y$ in [x] @ [y]",
    "let eq x y = $x = y$ let a = eq 1 2",
    "let a = ($[1] < [2]$, (1, 2) = (1, 2))",
    "let a = (1 < 2, $[1] < [2]$)",
    "let a = ($[1] < [2]$) = ([3] < [4])",
    "let f = (fun z -> $z = z$) = (fun z -> z = z)",
    "let f x = if $x = x$ then [] = [] else [1] = [1]",
    "let f x = match x with n when $n = n$ -> [] = []",
    "let a = $[1] = [1]$ let b = (1, 2) = (1, 2)",
    "let a = 1 = 1 let b = $(1, 2) = (1, 2)$",
    "let a = 1 = 1 and b = $(1, 2) = (1, 2)$ and c = [] = []",
    "let f x = (let y = $x = x$ in y) && [] = []",
    "let rec f x = $x = x$ && g x and g y = f y",
    "let f x y = (x = y, $[x] = [y]$, x + 1)",
    "let f x y z = ($x = y$, y = z)",
];

/// Rule 40 where there is also a comparison at another type.
pub const WITH_OTHERS: [&str; 5] = [
    "let a = [1] = [1] let b = 1 + $\"a\"$",
    "let a = ([1] = [1], 1 + $\"a\"$)",
    "let a = [1] = $['a']$",
    "let a = (1 + $\"a\"$, [1] = [1])",
    "let eq x y = x = y let b = eq 1 $'a'$",
];

/// Comparisons that are good by the types of the whole item.
pub const LATER: [Row; 10] = [
    (
        "let a = 1 = 2 and b = 'a' < 'b' and c = \"a\" > \"b\"",
        "bool; bool; bool",
    ),
    (
        "let a = true <= false and b = () >= () and c = 1 <> 2",
        "bool; bool; bool",
    ),
    ("let f x y = let b = x = y in x + 1", "int -> int -> int"),
    (
        "let f x y = (x = y, x ^ \"a\")",
        "string -> string -> bool * string",
    ),
    (
        "let f x y z = (x = y, y = z, z = 'a')",
        "char -> char -> char -> bool * bool * bool",
    ),
    (
        "let rec f x = x = x && g x and g y = if y then f y else y",
        "bool -> bool; bool -> bool",
    ),
    (
        "let f (x : 'a) (y : 'a) = x = y && (x : 'a) = 1",
        "int -> int -> bool",
    ),
    (
        "type t = int let f (x : t) (y : t) = x = y",
        "int -> int -> bool",
    ),
    (
        "type 'a c = int let f (x : ('a -> 'b) c) y = x = y",
        "int -> int -> bool",
    ),
    ("let f g = g 1 = (fun () -> ()) ()", "(int -> unit) -> bool"),
];
