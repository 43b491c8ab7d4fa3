//! Sources with types around 2,000 nodes: numbers, variables and names without parameters are one node,
//! a list is one more than its elements, a product or an arrow one more than its parts.

/// The largest type has at most 2,000 nodes.
pub const LITERAL_WITHIN: [&str; 13] = [
    // 1,999 parts.
    "let x = 0«1998 , 0»",
    "let x = [0«1997 , 0»]",
    "let f () = (fun () -> 0«1994 , 0»)",
    // 200 nodes; then 1 and nine times 201 more.
    "let y = 0«198 , 0» let x = 0«9  let x = x, y» let x = x, 0«188 , 0»",
    "let f = let y = 0«198 , 0» in let x = 0 in «9 let x = x, y in »x, 0«188 , 0»",
    "let x = («60 [»0«60 ]», «60 [»0«60 ]», 0«1876 , 0»)",
    "let f«999  _» = [0]",
    "let f = fun«999  _» -> [0]",
    "let f = function x -> 0«1996 , 0»",
    "let t = 0«1998 , 0» let u = t",
    "let u = (exit 0 : int«1996  * int»)",
    "let f (x : int«997  * int») = x",
    "let f (_«1996 , _») = 0",
];

/// The same where types grow at their uses.
pub const GROWN_WITHIN: [&str; 11] = [
    // 1,023 nodes.
    "let a = 0 «9 let a = a, a »",
    "let f = let a = 0 in «9 let a = a, a in »a",
    "let d x = (x, x) let () = ignore («9 d (»0«9 )»)",
    // The last has 256 variables.
    "let f0 x = (x, x) «3 let f~ x = f# (f# x) »",
    // 666 functions of three nodes.
    "let f g = let p = (g«665 , g») in g 0",
    "let t x = (x«664 , x») let f = let borrow_ y = t in y (0, 0)",
    "let f (g : int -> int) = let borrow_ y = g in (y«664 , y»)",
    "let f x = x«997  0» [0]",
    "let t = 0«1996 , 0» let () = ignore t",
    "let rec f x = g x and g x = (x«1996 , x»)",
    "let f = let y = exit 0 in [(y, 0); ((0«1995 , 0»), 1)]",
];

/// The same of declared types.
pub const DECLARED_WITHIN: [&str; 9] = [
    "type t = A of int«1998  * int» let x = A (0«1998 , 0»)",
    "type t = A of int«1998  * int» let f x = match x with A _ -> 0",
    // Nothing has the type of its argument.
    "type t = A of int«2999  * int» let f (x : t) = x",
    "type t = A of int«2999  * int» | B let f x = match x with B -> 0 | y -> 1",
    "type r = {a : int«1998  * int»} let f x = (x.a; 0)",
    "type r = {a : int«2999  * int»} let f (x : r) = x",
    "type r = {a : int«1998  * int»; b : int} let f ({a = _; b}) = b",
    "type 'a r = {a : 'a«98  * 'a»} let f (x : (int«18  * int») r) = (x.a; 0)",
    // An abbreviation that doubles its argument, nine times.
    "type 'a p = 'a * 'a let f (x : int«9  p») = 0",
];

/// The marked step makes a type too large.
pub const LITERALS: [&str; 17] = [
    "let x = $0«1999 , 0»$",
    "let x = ($0«1999 , 0»$)",
    "let x = $[0«1998 , 0»]$",
    "let f () = $fun () -> 0«1997 , 0»$",
    "let $f () = (fun () -> 0«1995 , 0»)$",
    "let y = 0«198 , 0» let x = 0«9  let x = x, y» let x = $x, y$«9  let x = x, y»",
    "let y = 0«198 , 0» let x = 0«9  let x = x, y» let x = $x, 0«189 , 0»$",
    "let f = let y = 0«198 , 0» in let x = 0 in «9 let x = x, y in »$x, 0«189 , 0»$",
    "let x = ($«60 [»0«60 ]», «60 [»0«60 ]», 0«1877 , 0»$)",
    "let f = let x = 0«1998 , 0» in let y = $x, 0$ in let z = y, 0 in 0",
    "let $f«1000  _» = 0$",
    "let f = $fun«1000  _» -> 0$",
    "let f = $function x -> 0«1997 , 0»$",
    "let t = 0«1998 , 0» let u = $[t]$",
    "let t = 0«1998 , 0» let f = $fun () -> t$",
    "let t = 0«1998 , 0» let $f () = t$",
    "let t = 0«999 , 0» let u = 0«998 , 0» let v = $t, u$",
];

/// The same by written types.
pub const WRITTEN: [&str; 4] = [
    "let u = $(exit 0 : int«1997  * int»)$",
    "let $u : int«1999  * int» = exit 0$",
    "let f ($x : int«1999  * int»$) = 0",
    "let $f (x : int«998  * int») = x$",
];

/// The same where types double.
pub const DOUBLED: [&str; 9] = [
    "let a = 0 «9 let a = a, a »let a = $a, a$",
    "let a = 0 «9 let a = a, a »let a = $a, a$«50  let a = a, a»",
    "let f = let a = 0 in «9 let a = a, a in »let a = $a, a$ in «50 let a = a, a in »a",
    "let d x = (x, x) let () = ignore ($«10 d (»0«10 )»$)",
    "let d x = (x, x) let () = ignore («50 d (»$«10 d (»0«10 )»$«50 )»)",
    "let d x = (x, x) let e x = «5 d (»x«5 )» let g x = $e (e x)$",
    "let f0 x = (x, x) «3 let f~ x = f# (f# x) »let f4 x = $f3 (f3 x)$",
    "let f«13  a#» = $[(«12 a#, »0); («12 (a~, a~), »1)]$",
    "let f«31  a#»«31  b#» = $[(«30 a#, »«30 b#, »a0); («30 (a~, a~), »«30 (b~, b~), »b0)]$",
];

/// A step makes the type of an older node too large.
pub const OLDER: [&str; 8] = [
    "let f g = let p = (g«666 , g») in $g 0$",
    "let f g = let p = (g«666 , g») in («500 0; »$g 0$«500 ; 0»)",
    "let t x = (x«665 , x») let f g = («15 0; »t g; $g 0$; 0)",
    "let t x = (x«665 , x») let f g = («16 0; »t g; $g 0$)",
    "let t x = (x«665 , x») let f g = (t g«17 ; 0»; $g 0$«300 ; 0»)",
    "let f x = let p = [x] in match x with $(_«1998 , _»)$ -> 0",
    "let rec f g = let p = (g«666 , g») in h g and $h k = k 0$",
    "let f g x = let p = (g«666 , g») in $if true then g else (fun y -> 0)$",
];

/// A name that is borrowed has its type behind the body.
pub const BORROWED: [&str; 4] = [
    "let t x = (x«665 , x») let f = $let borrow_ y = t in y (0, 0)$",
    "let f (g : int -> int) = $let borrow_ y = g in (y«666 , y»)$",
    "let $f (g : int -> int) = let borrow_ y = g in (y«665 , y»)$",
    "let f g = let borrow_ y = g in let p = (y«666 , y») in $y 0$",
];

/// Functions and their arguments.
pub const FUNCTIONS: [&str; 8] = [
    "let f x = $x«1000  0»$",
    "let $f x = x«999  0»$",
    "let t = 0«1997 , 0» let () = $ignore t$",
    "let () = ignore ($0«1999 , 0»$)",
    "let f x = x (fun y -> ($0«1999 , 0»$)) (0«1999 , 0»)",
    "let () = print_int (let x = $0«1999 , 0»$ in 0)",
    "let rec f x = g x and $g x = (x«1997 , x»)$",
    "let f = let y = exit 0 in $[(y, 0); ((0«1996 , 0»), 1)]$",
];

/// Declared types.
pub const DECLARED: [&str; 9] = [
    "type t = A of int«1999  * int» let x = A ($0«1999 , 0»$)",
    "type t = A of int«1999  * int» let f x = match x with $A _$ -> 0",
    "type r = {a : int«1999  * int»} let f x = ($x.a$; 0)",
    "type r = {a : int«1998  * int»} let $f x = x.a$",
    "type 'a r = {a : 'a«99  * 'a»} let f (x : (int«18  * int») r) = ($x.a$; 0)",
    "type 'a p = 'a * 'a let f ($x : int«10  p»$) = 0",
    "type 'a p = 'a * 'a let f ($x : int«50  p»$) = 0",
    "type t0 = int * int «50 type t~ = t# * t# »let f ($x : t50$) = 0",
    "type r = {a : int«1999  * int»} let f (${a = _}$) = 0",
];

/// Patterns.
pub const PATTERNS: [&str; 6] = [
    "let f x = match x with ($_«1999 , _»$) -> 0",
    "let $f x = match x with (_«1998 , _») -> 0$",
    "let f = $fun (_«1997 , _») -> 0$",
    "let $f (_«1997 , _») = 0$",
    "let f ($[_«1998 , _»]$) = 0",
    "let f x = match x with $[_«1998 , _»]$ -> 0 | _ -> 1",
];

/// The marked step makes a type too large, and other reasons stand at later steps.
pub const BEFORE_RULES: [&str; 11] = [
    "let x = $0«1999 , 0»$ let a = 1 + \"a\"",
    "let x = (($0«1999 , 0»$), 1 + \"a\")",
    "let x = 1 + ($0«1999 , 0»$)",
    "let f x = (($0«1999 , 0»$), x x)",
    "let f g = let p = (g«666 , g») in ($g 0$, 1 + \"a\")",
    "let f g = let p = (g«666 , g») in ($g 0$, (fun x -> x x))",
    "let f g = let p = (g«666 , g») in ($g 0$, (0«1999 , 0»))",
    "let f g = let p = (g«666 , g») in (($0«1999 , 0»$), g 0)",
    // A comparison is refused only where nothing else is.
    "let b = [1] = [1] let x = $0«1999 , 0»$",
    "let b = ([1] = [1], ($0«1999 , 0»$))",
    "let t = 0«1998 , 0» let b = t = t let c = $[t]$ = [t]",
];

/// Rule 40, before a step that makes a type too large, or in that step.
pub const CLASHES: [&str; 9] = [
    "let a = 1 + $\"a\"$ let x = 0«1999 , 0»",
    "let x = (1 + $\"a\"$, (0«1999 , 0»))",
    "let x = (0«1999 , 0», 1 + $\"a\"$)",
    "let f g = let p = (g«666 , g») in (1 + $\"a\"$, g 0)",
    "let f = let y = exit 0 in [(y, 0); $((0«1996 , 0»), 'a')$]",
    "let f g = let p = (g«666 , g») in [(g, 0); $((fun y -> y + 1), 'a')$]",
    "let f«13  a#» = [(«12 a#, »0); $(«12 (a~, a~), »'a')$]",
    "let f«31  a#»«31  b#» = [(«30 a#, »«30 b#, »a0, a30, b30); $(«30 (a~, a~), »«30 (b~, b~), »b0, 0, 'a')$]",
    "let t = 0«1998 , 0» let u = [t; $0$]",
];

/// Rule 41, before a step that makes a type too large, or in that step.
pub const CYCLES: [&str; 5] = [
    "let f x = x $x$ let y = 0«1999 , 0»",
    "let f x = (x $x$, (0«1999 , 0»))",
    "let f y = let z = exit 0 in [(z, y); $((0«1995 , 0»), [y])$]",
    "let f«31  a#» = [(«30 a#, »a30); $(«30 (a~, a~), »(a0, a0))$]",
    "let f«31  a#»«31  b#» = [(«30 a#, »«30 b#, »a0, a30); $(«30 (a~, a~), »«30 (b~, b~), »b0, (b0, b0))$]",
];

/// Rule 42 at a type that is not too large.
pub const COMPARISONS: [&str; 2] = [
    "let t = 0«1998 , 0» let b = $t = t$",
    "let f g = let p = (g«665 , g») in ($p = p$, g 0)",
];
