//! Items, with their trees.

use crate::tables::Case;

/// Bindings, and where a `let` behind `;` begins the next item.
pub const ITEMS: [Case; 32] = [
    ("let f a = b", "(let [f a = b])"),
    (
        "let rec f a (b, c) : int = d",
        "(letrec [f a (, b c) : (int) = d])",
    ),
    (
        "let f (local_ a : int) = b",
        "(let [f local_ (: a (int)) = b])",
    ),
    ("let a, b = c", "(let [(, a b) = c])"),
    ("let a : int = b", "(let [a : (int) = b])"),
    ("let (a : int) = b", "(let [(: a (int)) = b])"),
    ("let local_ a = b", "(let [local_ a = b])"),
    ("let A a = b", "(let [(A a) = b])"),
    ("let a = b and c = d", "(let [a = b] [c = d])"),
    ("let a = b; and c = d", "(let [a = b] [c = d])"),
    ("let a = 1 let b = 2", "(let [a = 1]) (let [b = 2])"),
    ("let a = 1; let b = 2", "(let [a = 1]) (let [b = 2])"),
    (
        "let a = 1; let b = 2 in b",
        "(let [a = (; 1 (let [b = 2] b))])",
    ),
    (
        "let a = 1; let x = 2; let y = 3 in y",
        "(let [a = 1]) (let [x = (; 2 (let [y = 3] y))])",
    ),
    (
        "let a = (1; let b = 2 in b); let c = 3",
        "(let [a = <(; 1 (let [b = 2] b))>]) (let [c = 3])",
    ),
    (
        "let a = 1;; type t = int let b = 2",
        "(let [a = 1]) (type [t = (int)]) (let [b = 2])",
    ),
    (
        "type t = A | B of int * t",
        "(type [t = | A | B (int) (t)])",
    ),
    (
        "type 'a t = {f : 'a; g : int;}",
        "(type [t 'a = {f 'a} {g (int)}])",
    ),
    (
        "type t = int and u = t -> t",
        "(type [t = (int)] [u = (-> (t) (t))])",
    ),
    (
        "let a = 1; type t = int",
        "(let [a = 1]) (type [t = (int)])",
    ),
    (
        "let rec f a = b and g c = d",
        "(letrec [f a = b] [g c = d])",
    ),
    ("let f () _ a = b", "(let [f () _ a = b])"),
    ("let f ((a)) = b", "(let [f <a> = b])"),
    (
        "let f (unique_ once_ a) (b : char) = c",
        "(let [f unique_ once_ a (: b (char)) = c])",
    ),
    ("let a as b = c", "(let [(as a b) = c])"),
    ("let shared_ many_ a = b", "(let [shared_ many_ a = b])"),
    (
        "let a = 1 type t = A let b = A",
        "(let [a = 1]) (type [t = | A]) (let [b = A])",
    ),
    // of whole programs
    (
        "type expr = Num of int | Add of expr * expr | Mul of expr * expr",
        "(type [expr = | Num (int) | Add (expr) (expr) | Mul (expr) (expr)])",
    ),
    (
        "let rec eval e = match e with Num n -> n | Add (a, b) -> eval a + eval b | Mul (a, b) -> eval a * eval b",
        "(letrec [eval e = (match e | (Num n) -> n | (Add <(, a b)>) -> (Add (@ eval a) (@ eval b)) | (Mul <(, a b)>) -> (Mul (@ eval a) (@ eval b)))])",
    ),
    (
        "let () = print_endline (string_of_int (eval (Add (Num 2, Mul (Num 4, Num 10)))))",
        "(let [() = (@ print_endline <(@ string_of_int <(@ eval <(Add <(, (Num 2) (Mul <(, (Num 4) (Num 10))>))>)>)>)>)])",
    ),
    (
        "let rec rev xs acc = match xs with [] -> acc | h :: t -> rev t (overwrite_ xs with (h :: acc))",
        "(letrec [rev xs acc = (match xs | [] -> acc | (:: h t) -> (@ rev t <(overwrite_ xs <(:: h acc)>)>))])",
    ),
    (
        "let f (unique_ xs) = let n = (let borrow_ y = xs in length y) in let z = eat xs in n + z",
        "(let [f unique_ xs = (let [n = <(borrow_ y xs (@ length y))>] (let [z = (@ eat xs)] (Add n z)))])",
    ),
];
