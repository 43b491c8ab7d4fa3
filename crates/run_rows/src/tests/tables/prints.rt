//! Output and ends.

use super::Row;

/// What is printed, and how a program ends.
pub const PRINTS: [Row; 21] = [
    ("", 100, "=0"),
    ("let () = ()", 100, "E72 ( ) L72 =0"),
    ("let x = 1", 100, "E72 ( ) L72 =0"),
    ("let () = print_string \"hi\"", 100, "E80 ( \"hi\" ) L80 =0"),
    ("let () = print_int 42", 100, "E80 ( \"42\" ) L80 =0"),
    ("let () = print_int (0 - 7)", 100, "E92 ( \"-7\" ) L92 =0"),
    (
        "let () = prerr_string \"no\"",
        100,
        "E80 ( !\"no\" ) L80 =0",
    ),
    ("let () = print_char 'a'", 100, "E80 ( \"a\" ) L80 =0"),
    (
        "let () = print_string (string_of_int 12)",
        100,
        "E92 ( M2 \"12\" ) L92 =0",
    ),
    (
        "let () = print_string (\"ab\" ^ \"cdefghij\")",
        100,
        "E92 ( M3 \"abcdefghij\" ) L92 =0",
    ),
    ("let s = \"\" ^ \"\"", 100, "E80 ( M1 ) L80 =0"),
    ("let s = \"abcd\" ^ \"efgh\"", 100, "E80 ( M2 ) L80 =0"),
    (
        "let () = exit 3 let () = print_string \"x\"",
        100,
        "E80 ( =3",
    ),
    ("let () = exit (0 - 1)", 100, "E92 ( =255"),
    ("let () = exit 256", 100, "E80 ( =0"),
    (
        "let () = failwith \"a\"",
        100,
        "E80 ( !\"Fatal error: exception Failure|\" =2",
    ),
    (
        "let () = print_string \"a\"; print_string \"b\"",
        100,
        "E96 ( \"ab\" ) L96 =0",
    ),
    ("let () = print_int 1", 0, "E80 ( \"1\" ) L80 =0"),
    (
        "let () = print_endline \"a\"",
        100,
        "E80 ( E96 ( \"a|\" ) L96 ) L80 =0",
    ),
    (
        "let () = if false then print_string \"a\"",
        100,
        "E88 ( ) L88 =0",
    ),
    (
        "let () = begin print_string \"a\" end",
        100,
        "E84 ( \"a\" ) L84 =0",
    ),
];
