//! Sources that no rule of names refuses.

/// What a `rec` may bind, and what sees its names.
pub const RECURSIVE: [&str; 14] = [
    "let rec f x = f x",
    "let rec f x = g x and g x = f x",
    "let rec f = fun x -> f x",
    "let rec f = (fun x -> f x)",
    "let rec f = begin fun x -> f x end",
    "let rec f = ((function x -> f x))",
    "let rec f = function x -> f x",
    "let rec f : int -> int = fun x -> f x",
    "let rec local_ f = fun x -> f x",
    "let rec f _ = 1",
    "let rec f () = f ()",
    "let rec f x = x and g = fun x -> f x",
    "let a = let rec f x = f x in f 1",
    "let a = let rec f = (function x -> f x) in f 1",
];

/// A name may be bound again in another scope.
pub const SHADOWING: [&str; 18] = [
    "let a = 1 let b = a",
    "let x = 1 let x = x",
    "let f x = x + 1 let () = print_int (f 2)",
    "let a = let x = 1 in let x = x + 1 in x",
    "let a = let x = 1 and y = 2 in x + y",
    "let x = 1 let a = let x = x in x",
    "let x = 1 let y = 2 and z = x",
    "let f x = fun x -> x",
    "let f x = (let x = x in x) + x",
    "let f f = f",
    "let f x y = match x with y -> y",
    "let f x = match x with x -> x",
    "let f x = match x with (x, _) -> x | (_, x) -> x",
    "let f x = function x -> x",
    "let f x = match x with Some y when y = 1 -> y | _ -> 2",
    "let f x = let borrow_ x = x in x",
    "let f x = let borrow_ y = x in y",
    "let f x = match x with Some _ -> overwrite_ x with Some 1 | y -> y",
];

/// Patterns at the edges.
pub const PATTERNS: [&str; 18] = [
    "let f _ _ = 0",
    "let f (_, _) = 0",
    "let f () () = 0",
    "let f (Some _) = 0",
    "let f (Some (_)) = 0",
    "let f (1 | 2) = 0",
    "let f (Some _ | None) = 0",
    "let f ((1 | 2) as x) = x",
    "let f ([x; y]) = x",
    "let f (x :: y) = x",
    "let f (x : int) (y : 'a) = x",
    "type t = A of int * int let f x = match x with A _ -> A (1, 2)",
    "type t = A of int * int let f x = match x with A (_) -> 1",
    "type t = A of int * int let f x = match x with A ((_)) -> 1",
    "type t = A of int * int let f (A (x, y)) = A ((x, y))",
    "type r = {a : int; b : int} let f ({a = x; _}) = x",
    "type r = {a : int; b : int} let f ({b; a}) = a + b",
    "type r = {a : int} let f ({a; _}) = a",
];

/// Constructors, records and paths at the edges.
pub const CONSTRUCTS: [&str; 13] = [
    "let a = String.length \"a\" let b = String.get \"a\" 0 let c = \"a\".[0]",
    "type t = String let a = String let b = String.length",
    "type t = A | B of int let f x = match x with A -> B 1 | B n -> A",
    "type t = A of int * int let a = A begin 1, 2 end",
    "type t = A of int let a = A (1)",
    "type t = A of (int * int) let a = A (1, 2) let f x = A x",
    "let a = Some (1, 2)",
    "let a = Some ()",
    "let f x = match x with Some (a, b) -> a",
    "type r = {a : int; b : int} let x = {b = 1; a = 2} let y = x.a",
    "type r = {a : int} let f a = {a}",
    "type r = {a : int} type s = {b : int} let f x y = x.a + y.b",
    "type r = {a : int} let f a = {a = a.a}",
];

/// Declarations, of which the rest is for a later layer to say.
pub const DECLARATIONS: [&str; 11] = [
    "type t = u and u = A of t",
    "type t = T of t",
    "type 'a t = A of 'a let f (x : 'b) (y : 'b t) = x",
    "type ('a, 'b) t = 'a * 'b",
    "type 'a t = 'b",
    "type t = int int",
    "type t = t",
    "type t = A type u = A",
    "type t = A type t = B let a = A let b = B",
    "type t = A | A",
    "type r = {a : int; a : int}",
];

/// Files at the edges.
pub const FILES: [&str; 9] = [
    "",
    ";;",
    "let a = 1;;",
    "type t = A;; let a = A",
    "let () = ()",
    "let _ = 1 let _ = 2",
    "let a = [1] @ [2]",
    "let append__ x = x let a = [1] @ [2]",
    "let a, b = 1, 2 let c = a + b",
];
