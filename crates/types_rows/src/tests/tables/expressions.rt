//! The types that expressions give.

use super::Row;

/// Literals, constants, tuples and operators.
pub const LITERALS: [Row; 33] = [
    ("", ""),
    ("let x = 1", "int"),
    ("let c = 'a'", "char"),
    ("let s = \"a\"", "string"),
    ("let b = true", "bool"),
    ("let u = ()", "unit"),
    ("let l = []", "'a list"),
    ("let o = None", "'a option"),
    ("let o = Some 'a'", "char option"),
    ("let x = (1)", "int"),
    ("let x = begin \"a\" end", "string"),
    ("let x = -1", "int"),
    ("let f x = -x", "int -> int"),
    ("let p = (1, \"a\", 'c')", "int * string * char"),
    ("let p = (1, ('b', true))", "int * (char * bool)"),
    ("let p = ((1, 'b'), true)", "(int * char) * bool"),
    ("let p = ([], None)", "'a list * 'b option"),
    ("let f x y = x + y", "int -> int -> int"),
    ("let f x y = x - y * x / y mod x", "int -> int -> int"),
    ("let f x y = x land y lor x lxor y", "int -> int -> int"),
    ("let f x y = x lsl y lsr x asr y", "int -> int -> int"),
    ("let f x y = x ^ y", "string -> string -> string"),
    ("let f x y = x && y", "bool -> bool -> bool"),
    ("let f x y = x || y", "bool -> bool -> bool"),
    ("let f x y = x @ y", "'a list -> 'a list -> 'a list"),
    ("let f x = x @ [1]", "int list -> int list"),
    ("let f x = x = 1", "int -> bool"),
    ("let f x = 'a' <> x", "char -> bool"),
    ("let f x = x < \"a\"", "string -> bool"),
    ("let f x = true > x", "bool -> bool"),
    ("let f x = x <= ()", "unit -> bool"),
    ("let f x y = x >= y + 1", "int -> int -> bool"),
    ("let f s i = s.[i]", "string -> int -> char"),
];

/// Names, and what an item's name has at each use.
pub const NAMES: [Row; 10] = [
    ("let x = 1 let y = x", "int; int"),
    ("let id x = x", "'a -> 'a"),
    ("let id x = x let f = id", "'a -> 'a; 'a -> 'a"),
    (
        "let id x = x let a = id 1 let b = id \"a\"",
        "'a -> 'a; int; string",
    ),
    (
        "let id x = x let p = (id 1, id 'a')",
        "'a -> 'a; int * char",
    ),
    ("let id x = x let f = id id", "'a -> 'a; 'a -> 'a"),
    (
        "let l = [] let a = 1 :: l let b = 'a' :: l",
        "'a list; int list; char list",
    ),
    (
        "let o = None let p = (Some 1 :: [o], Some 'a' :: [o])",
        "'a option; int option list * char option list",
    ),
    ("let f x = x let f x = (f 1, x)", "'a -> 'a; 'a -> int * 'a"),
    (
        "let k x y = x let f = k 1 let g = k (k 'a')",
        "'a -> 'b -> 'a; 'a -> int; 'a -> 'b -> char",
    ),
];

/// Functions and their applications.
pub const APPLICATIONS: [Row; 25] = [
    ("let k x y = x", "'a -> 'b -> 'a"),
    ("let f = fun x -> x", "'a -> 'a"),
    ("let f = fun x y -> y", "'a -> 'b -> 'b"),
    ("let f x = fun y -> x", "'a -> 'b -> 'a"),
    ("let f () = 1", "unit -> int"),
    ("let f _ = 1", "'a -> int"),
    ("let f (_ : int) = 'a'", "int -> char"),
    ("let f x y z = (z, y, x)", "'a -> 'b -> 'c -> 'c * 'b * 'a"),
    ("let f g = g 1", "(int -> 'a) -> 'a"),
    ("let f g x = g x", "('a -> 'b) -> 'a -> 'b"),
    ("let f g x y = g x y", "('a -> 'b -> 'c) -> 'a -> 'b -> 'c"),
    ("let f g x = g (g x)", "('a -> 'a) -> 'a -> 'a"),
    (
        "let f g h x = g (h x)",
        "('a -> 'b) -> ('c -> 'a) -> 'c -> 'b",
    ),
    (
        "let f g h x = g x (h x)",
        "('a -> 'b -> 'c) -> ('a -> 'b) -> 'a -> 'c",
    ),
    ("let f g x y = g y x", "('a -> 'b -> 'c) -> 'b -> 'a -> 'c"),
    (
        "let add x y = x + y let next = add 1 let two = next 1",
        "int -> int -> int; int -> int; int",
    ),
    ("let f x = fst ((fun y -> y + 1), x) 2", "'a -> int"),
    ("let x = (fun y -> [y]) 'a'", "char list"),
    ("let f g = (g 1, g 2)", "(int -> 'a) -> 'a * 'a"),
    ("let f g = g (fun x -> x)", "(('a -> 'a) -> 'b) -> 'b"),
    (
        "let f g = 1 + g 'a' \"s\"",
        "(char -> string -> int) -> int",
    ),
    ("let l = [(fun x -> x)]", "('a -> 'a) list"),
    (
        "let l = [(fun x -> x); (fun y -> y + 1)]",
        "(int -> int) list",
    ),
    ("let p = ((fun x -> x), 1)", "('a -> 'a) * int"),
    ("let f (x, y) = (y, x)", "'a * 'b -> 'b * 'a"),
];

/// Branches, sequences, local names, mode words and borrows.
pub const CONTROL: [Row; 27] = [
    ("let f b = if b then 1 else 2", "bool -> int"),
    ("let f b x y = if b then x else y", "bool -> 'a -> 'a -> 'a"),
    ("let f b = if b then ()", "bool -> unit"),
    ("let f b = if b then print_int 1", "bool -> unit"),
    ("let f b x = if b then x", "bool -> unit -> unit"),
    ("let f b = if b then exit 1 else 'a'", "bool -> char"),
    (
        "let f b = if b then exit 1 else failwith \"a\"",
        "bool -> 'a",
    ),
    ("let x = 1; 'a'", "char"),
    ("let f x = x; x + 1; \"a\"", "int -> string"),
    ("let f x = (); x", "'a -> 'a"),
    ("let x = let y = 1 in (y, y)", "int * int"),
    ("let f x = let g y = x in g", "'a -> 'b -> 'a"),
    ("let f x = let (a, b) = x in b", "'a * 'b -> 'b"),
    ("let x = let a = 1 and b = 'b' in (b, a)", "char * int"),
    (
        "let x = let rec f n = if n = 0 then 'a' else f (n - 1) in f 1",
        "char",
    ),
    ("let f x = let borrow_ y = x in y", "'a -> 'a"),
    ("let f x = let borrow_ y = x in 1", "'a -> int"),
    ("let f x = let borrow_ y = x in y + 1", "int -> int"),
    (
        "let f x = let borrow_ y = x in let borrow_ z = y in z ^ \"a\"",
        "string -> string",
    ),
    (
        "let l = [1] let f () = let borrow_ y = l in y",
        "int list; unit -> int list",
    ),
    ("let f (local_ x) = local_ x", "'a -> 'a"),
    ("let f (unique_ once_ x) = (once_ x, 1)", "'a -> 'a * int"),
    ("let f x = exclave_ Some x", "'a -> 'a option"),
    (
        "let f x = match x with Some y -> overwrite_ x with Some (y + 1) | None -> None",
        "int option -> int option",
    ),
    (
        "type t = A of int type u = B of char \
         let f x = match x with A n -> overwrite_ x with B 'b'",
        "t -> u",
    ),
    (
        "let f x = match x with h :: t -> overwrite_ x with (1 :: t) | [] -> []",
        "int list -> int list",
    ),
    (
        "let f x = match x with h :: t -> overwrite_ x with (Some h :: []) | [] -> []",
        "'a list -> 'a option list",
    ),
];
