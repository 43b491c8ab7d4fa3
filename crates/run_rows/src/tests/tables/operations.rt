//! Operations.

use super::Row;

/// Operations as functions, on texts, and outside their range.
pub const OPERATIONS: [Row; 13] = [
    (
        "let p = print_int let () = p 3",
        100,
        "E72 ( ) L72 E80 ( E64 ( \"3\" ) L64 ) L80 =0",
    ),
    (
        "let p = print_int let () = p 3",
        0,
        "E72 ( ) L72 E80 ( more",
    ),
    (
        "let () = (print_int) 3",
        100,
        "E84 ( E64 ( \"3\" ) L64 ) L84 =0",
    ),
    (
        "let f = string_of_int let s = f 7",
        100,
        "E72 ( ) L72 E80 ( E64 ( m2 ) L64 ) L80 =0",
    ),
    (
        "let g = String.get \"abc\" let () = print_char (g 1)",
        100,
        "E80 ( M3 ) L80 E92 ( E64 ( ) L64 \"b\" ) L92 =0",
    ),
    (
        "let () = print_char \"abc\".[1]",
        100,
        "E88 ( \"b\" ) L88 =0",
    ),
    (
        "let c = \"abc\".[3]",
        100,
        "E80 ( !\"Fatal error: exception Invalid_argument|\" =2",
    ),
    (
        "let c = \"abc\".[0 - 1]",
        100,
        "E88 ( !\"Fatal error: exception Invalid_argument|\" =2",
    ),
    (
        "let c = (print_string \"s\"; \"abc\").[(print_string \"i\"; 0)]",
        100,
        "E120 ( \"is\" ) L120 =0",
    ),
    (
        "let () = print_int (String.length \"abcd\")",
        100,
        "E92 ( \"4\" ) L92 =0",
    ),
    (
        "let () = print_int (int_of_char 'a')",
        100,
        "E92 ( \"97\" ) L92 =0",
    ),
    (
        "let () = print_char (char_of_int 98)",
        100,
        "E92 ( \"b\" ) L92 =0",
    ),
    (
        "let c = char_of_int 256",
        100,
        "E80 ( !\"Fatal error: exception Invalid_argument|\" =2",
    ),
];
