//! Types that would contain themselves, and other types in the same step and around it.

/// Rule 41: only infinite types solve the step and those before it.
pub const ALONE: [&str; 22] = [
    "let f x = x $x$",
    "let f x = x 1 $x$",
    "let f x = x $x$ x",
    "let rec f $x = f$",
    "let rec f x = f $f$",
    "let rec f $x y = f x$",
    "let f x = x :: $x$",
    "let f x = [x; $[x]$]",
    "let f x = [x; $[x]$; [[x]]]",
    "let f x = x = $[x]$",
    "let f x = [x] @ $x$",
    "let f x = if true then x else $(x, x)$",
    "let f x = match x with (a, b) -> a = $x$",
    "let f x = match x with a :: b -> a = $b$ | _ -> true",
    "let f x = match x with Some y -> y | None -> $x$",
    "let f x = match 1 with 0 -> x | 1 -> $[x]$ | _ -> x",
    "let f = function Some x -> x | x -> $x$",
    "let f x y = if x = y then x else $[y]$",
    "let f x y = match (x, y) with ((a, _), (b, _)) -> ([a; y], [b; $x$])",
    "type 'a r = {p : 'a; q : 'a} let f x = {p = x; q = $[x]$}",
    "let f (x : 'a) = ($[x]$ : 'a)",
    "let f (x : 'a) : 'a = $fun y -> x$",
];

/// Rule 40 at a part that alone would be rule 41: a later part of the step has another type.
pub const MIXED: [&str; 11] = [
    "let f (x : 'a -> string -> 'b) = x $x$ 1",
    "let f x = [x; $[x]$; 1; \"a\"]",
    "let f x = [x; $[x]$; 1]",
    "let f x = [x; $[x]$; Some x]",
    "let f x = [(x, 1); $([x], \"a\")$]",
    "let f x = [(1, x); $(\"a\", [x])$]",
    "let f x = match 1 with 0 -> x | 1 -> $[x]$ | _ -> \"a\"",
    "let f x = match 1 with 0 -> x | 1 -> $[x]$ | n when 2 -> x | _ -> x",
    "type 'a r = {p : 'a; q : 'a; s : int} let f x = {p = x; q = $[x]$; s = \"a\"}",
    "let f x y = [(x, y); $([y], [x])$; (1, y)]",
    "let f x y = [(x, y); $([y], Some x)$; (y, x)]",
];

/// A step with an infinite solution, before and behind steps with none.
pub const ORDER: [&str; 6] = [
    "let f x = (x $x$, 1 + \"a\")",
    "let f x = x $x$ let y = 1 + \"a\"",
    "let f x y = [(x, y); $([y], [x])$]",
    "let f x = ([x; $[x]$], [x; 1; \"a\"])",
    "let f x = (1 = 2) = (x = $[x]$)",
    "let y = (1, 2) = (1, 2) let f x = x $x$",
];
