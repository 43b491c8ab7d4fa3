//! Forms that take all that can belong to them, with their trees.

use crate::tables::Case;

/// Each open form, and what belongs to it.
pub const OPEN_FORMS: [Case; 52] = [
    ("let x = let y = 1 in y", "(let [x = (let [y = 1] y)])"),
    (
        "let x = let rec f y = 1 and g z = 2 in f",
        "(let [x = (letrec [f y = 1] [g z = 2] f)])",
    ),
    (
        "let x = let y = 1 in y; z",
        "(let [x = (let [y = 1] (; y z))])",
    ),
    (
        "let x = let y = 1 in y + 2",
        "(let [x = (let [y = 1] (Add y 2))])",
    ),
    (
        "let x = a + let y = 1 in y + 2",
        "(let [x = (Add a (let [y = 1] (Add y 2)))])",
    ),
    (
        "let x = a, let y = 1 in y, 2",
        "(let [x = (, a (let [y = 1] (, y 2)))])",
    ),
    (
        "let x = - let y = 1 in y",
        "(let [x = (- (let [y = 1] y))])",
    ),
    (
        "let x = local_ fun y -> y",
        "(let [x = (local_ (fun y -> y))])",
    ),
    (
        "let x = let borrow_ y = z in y; 1",
        "(let [x = (borrow_ y z (; y 1))])",
    ),
    (
        "let x = a :: let borrow_ y = z in y",
        "(let [x = (:: a (borrow_ y z y))])",
    ),
    ("let x = if a then b", "(let [x = (if a b)])"),
    ("let x = if a then b else c", "(let [x = (if a b c)])"),
    (
        "let x = if a then if b then c else d",
        "(let [x = (if a (if b c d))])",
    ),
    (
        "let x = if a then if b then c else d else e",
        "(let [x = (if a (if b c d) e)])",
    ),
    ("let x = if a then b, c", "(let [x = (if a (, b c))])"),
    ("let x = if a then b; c", "(let [x = (; (if a b) c)])"),
    (
        "let x = if a then b else c; d",
        "(let [x = (; (if a b c) d)])",
    ),
    (
        "let x = if a; b then c else d + e",
        "(let [x = (if (; a b) c (Add d e))])",
    ),
    (
        "let x = a * if b then c else d * e",
        "(let [x = (Mul a (if b c (Mul d e)))])",
    ),
    (
        "let x = if a then let y = 1 in y else b",
        "(let [x = (if a (let [y = 1] y) b)])",
    ),
    (
        "let x = if a then let y = 1 in y; else b",
        "(let [x = (if a (let [y = 1] y) b)])",
    ),
    (
        "let x = match a with b -> c",
        "(let [x = (match a | b -> c)])",
    ),
    (
        "let x = match a with | b -> c | d -> e",
        "(let [x = (match a | b -> c | d -> e)])",
    ),
    (
        "let x = match a with b when c; d -> e; f | g -> h",
        "(let [x = (match a | b when (; c d) -> (; e f) | g -> h)])",
    ),
    (
        "let x = match a with b -> match c with d -> e | f -> g",
        "(let [x = (match a | b -> (match c | d -> e | f -> g))])",
    ),
    (
        "let x = match a with b -> (match c with d -> e) | f -> g",
        "(let [x = (match a | b -> <(match c | d -> e)> | f -> g)])",
    ),
    (
        "let x = match a; b with c -> d",
        "(let [x = (match (; a b) | c -> d)])",
    ),
    (
        "let x = a ^ match b with c -> d, e",
        "(let [x = (Join a (match b | c -> (, d e)))])",
    ),
    (
        "let x = match a with b -> c;",
        "(let [x = (match a | b -> c)])",
    ),
    (
        "let x = match a with b -> c; | d -> e",
        "(let [x = (match a | b -> c | d -> e)])",
    ),
    ("let x = function a -> b", "(let [x = (function | a -> b)])"),
    (
        "let x = function | a -> b | c when d -> e",
        "(let [x = (function | a -> b | c when d -> e)])",
    ),
    (
        "let x = a || function b -> c || d",
        "(let [x = (BoolOr a (function | b -> (BoolOr c d)))])",
    ),
    ("let x = fun a -> b", "(let [x = (fun a -> b)])"),
    (
        "let x = fun a _ () (b, c) -> d; e",
        "(let [x = (fun a _ () (, b c) -> (; d e))])",
    ),
    (
        "let x = a = fun b -> c = d",
        "(let [x = (Eq a (fun b -> (Eq c d)))])",
    ),
    ("let x = exclave_ a; b", "(let [x = (exclave_ (; a b))])"),
    (
        "let x = a lsl exclave_ b + c",
        "(let [x = (Lsl a (exclave_ (Add b c)))])",
    ),
    (
        "let x = a && exclave_ b",
        "(let [x = (BoolAnd a (exclave_ b))])",
    ),
    (
        "let x = let y = 1 in y; ; z",
        "(let [x = (; (let [y = 1] y) z)])",
    ),
    (
        "let x = [let y = 1 in y; z]",
        "(let [x = [ (let [y = 1] (; y z))]])",
    ),
    (
        "let x = overwrite_ y with (a :: let z = b in z)",
        "(let [x = (overwrite_ y <(:: a (let [z = b] z))>)])",
    ),
    (
        "let x = let a, b = c and f d = e in a",
        "(let [x = (let [(, a b) = c] [f d = e] a)])",
    ),
    (
        "let x = let y = let z = 1 in z in y",
        "(let [x = (let [y = (let [z = 1] z)] y)])",
    ),
    (
        "let x = fun a -> fun b -> c",
        "(let [x = (fun a -> (fun b -> c))])",
    ),
    (
        "let x = if a then fun b -> c else d",
        "(let [x = (if a (fun b -> c) d)])",
    ),
    (
        "let x = if a then match b with c -> d else e",
        "(let [x = (if a (match b | c -> d) e)])",
    ),
    (
        "let x = if a then b else let y = 1 in y; z",
        "(let [x = (if a b (let [y = 1] (; y z)))])",
    ),
    (
        "let x = if let y = 1 in y then a else b",
        "(let [x = (if (let [y = 1] y) a b)])",
    ),
    (
        "let x = match fun a -> b with c -> d",
        "(let [x = (match (fun a -> b) | c -> d)])",
    ),
    (
        "let x = match a with b when fun c -> d -> e",
        "(let [x = (match a | b when (fun c -> d) -> e)])",
    ),
    ("let x = (fun a -> b) c", "(let [x = (@ <(fun a -> b)> c)])"),
];

/// Open forms as the last operand.
pub const LAST_OPERANDS: [Case; 33] = [
    // behind an operator
    (
        "let x = a mod let borrow_ y = z in y mod b",
        "(let [x = (Mod a (borrow_ y z (Mod y b)))])",
    ),
    (
        "let x = a + function b -> c + d",
        "(let [x = (Add a (function | b -> (Add c d)))])",
    ),
    (
        "let x = a - if b then c else d - e",
        "(let [x = (Sub a (if b c (Sub d e)))])",
    ),
    (
        "let x = a - if b then c - d",
        "(let [x = (Sub a (if b (Sub c d)))])",
    ),
    (
        "let x = a @ fun b -> c @ d",
        "(let [x = (Append a (fun b -> (Append c d)))])",
    ),
    (
        "let x = a ^ exclave_ b ^ c",
        "(let [x = (Join a (exclave_ (Join b c)))])",
    ),
    (
        "let x = a < let y = 1 in y < b",
        "(let [x = (Lt a (let [y = 1] (Lt y b)))])",
    ),
    (
        "let x = a && let rec f y = 1 in f && b",
        "(let [x = (BoolAnd a (letrec [f y = 1] (BoolAnd f b)))])",
    ),
    (
        "let x = a || match b with c -> d || e",
        "(let [x = (BoolOr a (match b | c -> (BoolOr d e)))])",
    ),
    (
        "let x = a + b * fun c -> d + e",
        "(let [x = (Add a (Mul b (fun c -> (Add d e))))])",
    ),
    // behind a prefix
    ("let x = - fun a -> b", "(let [x = (- (fun a -> b))])"),
    ("let x = - if a then b", "(let [x = (- (if a b))])"),
    ("let x = - exclave_ a", "(let [x = (- (exclave_ a))])"),
    (
        "let x = unique_ function a -> b",
        "(let [x = (unique_ (function | a -> b))])",
    ),
    (
        "let x = global_ match a with b -> c",
        "(let [x = (global_ (match a | b -> c))])",
    ),
    (
        "let x = once_ let borrow_ y = z in y",
        "(let [x = (once_ (borrow_ y z y))])",
    ),
    // as a part of a tuple
    (
        "let x = a, function b -> c, d",
        "(let [x = (, a (function | b -> (, c d)))])",
    ),
    (
        "let x = a, fun b -> c, d",
        "(let [x = (, a (fun b -> (, c d)))])",
    ),
    (
        "let x = a, if b then c, d",
        "(let [x = (, a (if b (, c d)))])",
    ),
    (
        "let x = a, b, match c with d -> e, f",
        "(let [x = (, a b (match c | d -> (, e f)))])",
    ),
    (
        "let x = a, exclave_ b, c",
        "(let [x = (, a (exclave_ (, b c)))])",
    ),
    (
        "let x = a, let borrow_ y = z in y, b",
        "(let [x = (, a (borrow_ y z (, y b)))])",
    ),
    // as a part of a sequence
    (
        "let x = a; let y = 1 in y; b",
        "(let [x = (; a (let [y = 1] (; y b)))])",
    ),
    (
        "let x = a; let borrow_ y = z in y; b",
        "(let [x = (; a (borrow_ y z (; y b)))])",
    ),
    (
        "let x = a; fun b -> c; d",
        "(let [x = (; a (fun b -> (; c d)))])",
    ),
    (
        "let x = a; function b -> c; d",
        "(let [x = (; a (function | b -> (; c d)))])",
    ),
    (
        "let x = a; match b with c -> d; e",
        "(let [x = (; a (match b | c -> (; d e)))])",
    ),
    ("let x = a; if b then c; d", "(let [x = (; a (if b c) d)])"),
    (
        "let x = a; exclave_ b; c",
        "(let [x = (; a (exclave_ (; b c)))])",
    ),
    // in the places that close by themselves
    (
        "let x = [fun a -> b; c]",
        "(let [x = [ (fun a -> (; b c))]])",
    ),
    ("let x = [if a then b; c]", "(let [x = [ (if a b) c]])"),
    (
        "let x = {f = fun a -> b; g = c}",
        "(let [x = { f=(fun a -> (; b (Eq g c)))}])",
    ),
    (
        "let x = a.[let y = 1 in y]",
        "(let [x = (.[] a (let [y = 1] y))])",
    ),
];
