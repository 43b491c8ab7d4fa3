//! Types and declarations, with their trees.

use crate::tables::Case;

/// Each kind of type and declaration, and annotations.
pub const TYPES: [Case; 29] = [
    ("type t = int", "(type [t = (int)])"),
    ("type t = (int)", "(type [t = (int)])"),
    ("type 'a t = 'a", "(type [t 'a = 'a])"),
    ("type ('a) t = 'a list", "(type [t 'a = (list 'a)])"),
    (
        "type ('a, 'b) t = ('b, 'a) u",
        "(type [t 'a 'b = (u 'b 'a)])",
    ),
    (
        "type t = int list option",
        "(type [t = (option (list (int)))])",
    ),
    (
        "type t = (int * char) list",
        "(type [t = (list (* (int) (char)))])",
    ),
    (
        "type t = int * char * string",
        "(type [t = (* (int) (char) (string))])",
    ),
    (
        "type t = int list * char",
        "(type [t = (* (list (int)) (char))])",
    ),
    (
        "type t = int * (char * bool)",
        "(type [t = (* (int) (* (char) (bool)))])",
    ),
    (
        "type t = int -> char -> bool",
        "(type [t = (-> (int) (-> (char) (bool)))])",
    ),
    (
        "type t = (int -> char) -> bool",
        "(type [t = (-> (-> (int) (char)) (bool))])",
    ),
    (
        "type t = int * char -> bool",
        "(type [t = (-> (* (int) (char)) (bool))])",
    ),
    (
        "type t = int -> char * bool",
        "(type [t = (-> (int) (* (char) (bool)))])",
    ),
    (
        "type t = local_ int -> unique_ char",
        "(type [t = (-> local_ (int) unique_ (char))])",
    ),
    (
        "type t = int -> unique_ char -> bool",
        "(type [t = (-> (int) (-> unique_ (char) (bool)))])",
    ),
    (
        "type t = global_ shared_ many_ int -> once_ char",
        "(type [t = (-> global_ shared_ many_ (int) once_ (char))])",
    ),
    ("type t = A", "(type [t = | A])"),
    ("type t = | A | B", "(type [t = | A | B])"),
    (
        "type t = A of int * char | B",
        "(type [t = | A (int) (char) | B])",
    ),
    (
        "type t = A of (int * char)",
        "(type [t = | A (* (int) (char))])",
    ),
    (
        "type t = A of int -> char * bool",
        "(type [t = | A (-> (int) (char)) (bool)])",
    ),
    (
        "type t = A of local_ int -> char",
        "(type [t = | A local_ (-> (int) (char))])",
    ),
    (
        "type t = A of global_ int * unique_ char",
        "(type [t = | A global_ (int) unique_ (char)])",
    ),
    ("type t = {f : int}", "(type [t = {f (int)}])"),
    (
        "type t = {global_ f : int; shared_ many_ g : int -> char;}",
        "(type [t = {f global_ (int)} {g shared_ many_ (-> (int) (char))}])",
    ),
    (
        "type t = A and 'a u = {f : 'a} and v = t",
        "(type [t = | A] [u 'a = {f 'a}] [v = (t)])",
    ),
    ("let x : int -> int = y", "(let [x : (-> (int) (int)) = y])"),
    (
        "let f (a : local_ 'a -> int) : 'a = b",
        "(let [f (: a (-> local_ 'a (int))) : 'a = b])",
    ),
];
