//! Abbreviations inside declarations.
use super::Row;

/// In the fields of constructors and records, and in one another.
pub const INSIDE: [Row; 14] = [
    (
        "type u = t and t = int type v = A of u let f (A n) = n + 1",
        "v -> int",
    ),
    ("type u = t and t = int let f (x : u) = x + 1", "int -> int"),
    (
        "type v = A of u and u = t list and t = int let f (A l) = l",
        "v -> int list",
    ),
    (
        "type 'a id = 'a type u = A of int id let f (A n) = n + 1",
        "u -> int",
    ),
    (
        "type 'a id = 'a type 'a u = A of 'a id id let f (A n) = n",
        "'a u -> 'a",
    ),
    (
        "type ('a, 'b) k = 'a type u = A of (int, char) k let f (A n) = n + 1",
        "u -> int",
    ),
    (
        "type ('a, 'b) k = 'b type 'a u = A of (int, 'a) k let f (A n) = n",
        "'a u -> 'a",
    ),
    (
        "type t = int type r = {v : t; w : t list} let f r = (r.v + 1, r.w)",
        "r -> int * int list",
    ),
    (
        "type ('a, 'b) p = 'a * 'b type ('a, 'b) q = ('b, 'a) p type u = A of (int, char) q let f (A (x, y)) = (x, y)",
        "u -> char * int",
    ),
    (
        "type ('a, 'b) p = 'a * 'b type ('a, 'b) q = (('b, 'a) p, 'a) p type ('c, 'd) u = A of ('d, 'c) q * int let f (A (x, y)) = x",
        "('a, 'b) u -> ('a * 'b) * 'b",
    ),
    (
        "type 'a f = 'a -> 'a type u = A of int f let g (A f) = f 1",
        "u -> int",
    ),
    (
        "type t = u list and u = A of t let f (A x) = x",
        "u -> u list",
    ),
    (
        "type 'a t = 'a u list and 'a u = A of 'a t let f (A x) = x",
        "'a u -> 'a u list",
    ),
    (
        "type 'a a = 'a * 'a type 'a b = 'a a a type 'a c = 'a b b type u = A of int c let f (A (x, y)) = 1",
        "u -> int",
    ),
];

/// Chains whose last type has more nodes than any memory: no harm where no value has it.
pub const GREAT: [Row; 3] = [
    (
        "type 'a a = 'a * 'a type 'a b = 'a a a type 'a c = 'a b b type 'a d = 'a c c type 'a e = 'a d d type 'a f = 'a e e type 'a g = 'a f f type 'a h = 'a g g type 'a i = 'a h h type 'a j = 'a i i type 'a k = 'a j j type 'a l = 'a k k type 'a m = 'a l l type 'a n = 'a m m type 'a o = 'a n n type 'a p = 'a o o type 'a q = 'a p p type 'a r = 'a q q type 'a s = 'a r r type 'a t = 'a s s type 'a u = 'a t t type 'a v = 'a u u type 'a w = 'a v v type 'a x = 'a w w type 'a y = 'a x x type 'a z = 'a y y let x = 1",
        "int",
    ),
    (
        "type 'a a = 'a * 'a type 'a b = 'a a a type 'a c = 'a b b type 'a d = 'a c c type 'a e = 'a d d type 'a f = 'a e e type 'a g = 'a f f type 'a h = 'a g g type 'a i = 'a h h type 'a j = 'a i i type 'a k = 'a j j type 'a l = 'a k k type 'a m = 'a l l type 'a n = 'a m m type 'a o = 'a n n type 'a p = 'a o o type 'a q = 'a p p type 'a r = 'a q q type 'a s = 'a r r type 'a t = 'a s s type 'a u = 'a t t type 'a v = 'a u u type 'a w = 'a v v type 'a x = 'a w w type 'a y = 'a x x type 'a z = 'a y y type w0 = A of int z | B let x = B",
        "w0",
    ),
    (
        "type 'a a = 'a * 'a type 'a b = 'a a a type 'a c = 'a b b type 'a d = 'a c c type 'a e = 'a d d type 'a f = 'a e e type 'a g = 'a f f type 'a h = 'a g g type 'a i = 'a h h type 'a j = 'a i i type 'a k = 'a j j type 'a l = 'a k k type 'a m = 'a l l type 'a n = 'a m m type 'a o = 'a n n type 'a p = 'a o o type 'a q = 'a p p type 'a r = 'a q q type 'a s = 'a r r type 'a t = 'a s s type 'a u = 'a t t type 'a v = 'a u u type 'a w = 'a v v type 'a x = 'a w w type 'a y = 'a x x type 'a z = 'a y y type w0 = A of int z | B let f (A x) = 1",
        "no memory",
    ),
];
