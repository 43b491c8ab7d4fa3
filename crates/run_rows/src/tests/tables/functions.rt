//! Functions and calls.

use super::Row;

/// How functions are made, held and applied, right to left.
pub const FUNCTIONS: [Row; 12] = [
    (
        "let f x y = () let () = f (print_string \"a\") (print_string \"b\")",
        100,
        "E68 ( ) L68 E108 ( \"ba\" E76 ( ) L76 ) L108 =0",
    ),
    (
        "let g x = (print_string \"g\"; fun y -> ()) let () = (g 1) (print_string \"a\")",
        100,
        "E68 ( ) L68 E104 ( \"a\" E92 ( \"g\" ) L92 E72 ( ) L72 ) L104 =0",
    ),
    (
        "let add x y = x + y let inc = add 1 let () = print_int (inc 41)",
        100,
        "E68 ( ) L68 E80 ( M3 ) L80 E92 ( E84 ( ) L84 \"42\" ) L92 =0",
    ),
    (
        "let f x = fun y -> x + y let () = print_int (f 1 2)",
        100,
        "E68 ( ) L68 E96 ( E72 ( M3 ) L72 E80 ( ) L80 \"3\" ) L96 =0",
    ),
    (
        "let x = 5 let f y = x + y let () = print_int (f 1)",
        100,
        "E72 ( ) L72 E68 ( ) L68 E92 ( E80 ( ) L80 \"6\" ) L92 =0",
    ),
    (
        "let () = let x = 2 in let f y = x * y in print_int (f 3)",
        100,
        "E112 ( M3 E80 ( ) L80 \"6\" ) L112 =0",
    ),
    (
        "let k = fun x y -> x let () = print_int (k 1 2)",
        100,
        "E72 ( ) L72 E96 ( E76 ( ) L76 \"1\" ) L96 =0",
    ),
    ("let fs = [fun x -> x + 1]", 100, "E76 ( M3 ) L76 =0"),
    (
        "let f a b = fun c -> a + b + c let g = f 1 2",
        100,
        "E68 ( ) L68 E84 ( E76 ( M4 ) L76 ) L84 =0",
    ),
    (
        "let () = print_string (if not true then \"a\" else \"b\")",
        100,
        "E104 ( E84 ( ) L84 \"b\" ) L104 =0",
    ),
    (
        "let () = print_int (fst (3, 4))",
        100,
        "E104 ( M3 E80 ( ) L80 \"3\" ) L104 =0",
    ),
    (
        "let f x = print_int x let () = f (f 1; 2)",
        100,
        "E68 ( ) L68 E100 ( E80 ( \"1\" ) L80 E80 ( \"2\" ) L80 ) L100 =0",
    ),
];

/// Calls in tail position, and calls where no fuel is left.
pub const CALLS: [Row; 8] = [
    (
        "let () = let rec f n = if n = 0 then 0 else f (n - 1) in print_int (f 2)",
        100,
        "E100 ( E112 ( ) T112>112 ( ) T112>112 ( ) L112 \"0\" ) L100 =0",
    ),
    (
        "let rec f n = f n let () = f 0",
        2,
        "E68 ( ) L68 E80 ( E80 ( ) T80>80 ( ) more",
    ),
    (
        "let rec f n = f n let () = f 0",
        0,
        "E68 ( ) L68 E80 ( more",
    ),
    (
        "let add x y = x + y let f x = add x let g = f 1",
        100,
        "E68 ( ) L68 E68 ( ) L68 E80 ( E80 ( ) M3 L80 ) L80 =0",
    ),
    (
        "let f x = fun y -> y let g x = f x x let z = g 1",
        100,
        "E68 ( ) L68 E68 ( ) L68 E80 ( E84 ( ) E72 ( ) L72 T84>72 ( ) L72 ) L80 =0",
    ),
    (
        "let rec loop n = if n = 0 then () else loop (n - 1) let () = loop 3",
        4,
        "E68 ( ) L68 E80 ( E112 ( ) T112>112 ( ) T112>112 ( ) T112>112 ( ) L112 ) L80 =0",
    ),
    (
        "let f x = x let () = f (); f (); f ()",
        1,
        "E68 ( ) L68 E108 ( E72 ( ) L72 E72 ( ) L72 E72 ( ) L72 ) L108 =0",
    ),
    (
        "let rec even n = if n = 0 then true else odd (n - 1) and odd n = if n = 0 then false else even (n - 1) let b = even 1",
        100,
        "E72 ( ) L72 E80 ( E112 ( ) T112>112 ( ) L112 ) L80 =0",
    ),
];
