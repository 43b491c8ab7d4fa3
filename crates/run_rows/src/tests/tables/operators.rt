//! Operators.

use super::Row;

/// Numbers, in 63 bits.
pub const NUMBERS: [Row; 13] = [
    (
        "let () = print_int (1 / 0)",
        100,
        "E92 ( !\"Fatal error: exception Division_by_zero|\" =2",
    ),
    (
        "let x = 1 mod 0",
        100,
        "E80 ( !\"Fatal error: exception Division_by_zero|\" =2",
    ),
    (
        "let () = print_int ((0 - 7) / 2)",
        100,
        "E104 ( \"-3\" ) L104 =0",
    ),
    (
        "let () = print_int ((0 - 7) mod 2)",
        100,
        "E104 ( \"-1\" ) L104 =0",
    ),
    (
        "let () = print_int (4611686018427387903 + 1)",
        100,
        "E92 ( \"-4611686018427387904\" ) L92 =0",
    ),
    (
        "let () = print_int (1 lsl 62)",
        100,
        "E92 ( \"-4611686018427387904\" ) L92 =0",
    ),
    ("let () = print_int (1 lsl 63)", 100, "E92 ( \"0\" ) L92 =0"),
    (
        "let () = print_int ((0 - 1) lsr 1)",
        100,
        "E104 ( \"4611686018427387903\" ) L104 =0",
    ),
    (
        "let () = print_int ((0 - 1) asr 70)",
        100,
        "E104 ( \"-1\" ) L104 =0",
    ),
    ("let () = print_int (6 land 3)", 100, "E92 ( \"2\" ) L92 =0"),
    ("let () = print_int (6 lor 3)", 100, "E92 ( \"7\" ) L92 =0"),
    ("let () = print_int (6 lxor 3)", 100, "E92 ( \"5\" ) L92 =0"),
    (
        "let f x = - x let () = print_int (f 3)",
        100,
        "E68 ( ) L68 E92 ( E76 ( ) L76 \"-3\" ) L92 =0",
    ),
];

/// Comparisons, and what `&&` and `||` leave out.
pub const COMPARISONS: [Row; 11] = [
    (
        "let () = print_string (if 1 < 2 then \"y\" else \"n\")",
        100,
        "E104 ( \"y\" ) L104 =0",
    ),
    (
        "let () = print_string (if \"ab\" < \"b\" then \"y\" else \"n\")",
        100,
        "E104 ( \"y\" ) L104 =0",
    ),
    (
        "let () = print_string (if \"a\" < \"ab\" then \"y\" else \"n\")",
        100,
        "E104 ( \"y\" ) L104 =0",
    ),
    (
        "let () = print_string (if \"b\" = \"ab\" then \"y\" else \"n\")",
        100,
        "E104 ( \"n\" ) L104 =0",
    ),
    (
        "let () = print_string (if true > false then \"y\" else \"n\")",
        100,
        "E104 ( \"y\" ) L104 =0",
    ),
    (
        "let () = print_string (if 'a' <> 'a' then \"y\" else \"n\")",
        100,
        "E104 ( \"n\" ) L104 =0",
    ),
    (
        "let () = print_string (if 2 >= 3 then \"y\" else \"n\")",
        100,
        "E104 ( \"n\" ) L104 =0",
    ),
    (
        "let () = print_string (if 2 <= 2 then \"y\" else \"n\")",
        100,
        "E104 ( \"y\" ) L104 =0",
    ),
    (
        "let b = (print_string \"a\"; false) && (print_string \"b\"; true)",
        100,
        "E120 ( \"a\" ) L120 =0",
    ),
    (
        "let b = (print_string \"a\"; true) || (print_string \"b\"; true)",
        100,
        "E120 ( \"a\" ) L120 =0",
    ),
    (
        "let b = (print_string \"a\"; true) && (print_string \"b\"; true)",
        100,
        "E120 ( \"ab\" ) L120 =0",
    ),
];
