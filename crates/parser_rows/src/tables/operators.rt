//! Operators, with their trees.

use crate::tables::Case;

/// Each level beside the next, and how it groups.
pub const OPERATORS: [Case; 48] = [
    ("let x = a lsl b lsl c", "(let [x = (Lsl a (Lsl b c))])"),
    ("let x = a lsr b asr c", "(let [x = (Lsr a (Asr b c))])"),
    ("let x = - a lsl b", "(let [x = (Lsl (- a) b)])"),
    ("let x = a lsl - b", "(let [x = (Lsl a (- b))])"),
    ("let x = a * b lsl c", "(let [x = (Mul a (Lsl b c))])"),
    ("let x = a lsl b * c", "(let [x = (Mul (Lsl a b) c)])"),
    (
        "let x = a * b / c mod d",
        "(let [x = (Mod (Div (Mul a b) c) d)])",
    ),
    (
        "let x = a land b lor c lxor d",
        "(let [x = (Xor (Or (And a b) c) d)])",
    ),
    ("let x = a + b * c", "(let [x = (Add a (Mul b c))])"),
    ("let x = a * b + c", "(let [x = (Add (Mul a b) c)])"),
    ("let x = a - b - c", "(let [x = (Sub (Sub a b) c)])"),
    ("let x = a - b + c", "(let [x = (Add (Sub a b) c)])"),
    ("let x = f -1", "(let [x = (Sub f 1)])"),
    ("let x = a :: b + c", "(let [x = (:: a (Add b c))])"),
    ("let x = a + b :: c", "(let [x = (:: (Add a b) c)])"),
    ("let x = a :: b :: c", "(let [x = (:: a (:: b c))])"),
    ("let x = a @ b :: c", "(let [x = (Append a (:: b c))])"),
    ("let x = a :: b @ c", "(let [x = (Append (:: a b) c)])"),
    ("let x = a @ b ^ c", "(let [x = (Append a (Join b c))])"),
    ("let x = a ^ b ^ c", "(let [x = (Join a (Join b c))])"),
    ("let x = a = b @ c", "(let [x = (Eq a (Append b c))])"),
    ("let x = a @ b = c", "(let [x = (Eq (Append a b) c)])"),
    ("let x = a < b > c", "(let [x = (Gt (Lt a b) c)])"),
    (
        "let x = a <= b >= c <> d",
        "(let [x = (Ne (Ge (Le a b) c) d)])",
    ),
    ("let x = a && b = c", "(let [x = (BoolAnd a (Eq b c))])"),
    ("let x = a = b && c", "(let [x = (BoolAnd (Eq a b) c)])"),
    (
        "let x = a && b && c",
        "(let [x = (BoolAnd a (BoolAnd b c))])",
    ),
    (
        "let x = a || b && c",
        "(let [x = (BoolOr a (BoolAnd b c))])",
    ),
    (
        "let x = a && b || c",
        "(let [x = (BoolOr (BoolAnd a b) c)])",
    ),
    ("let x = a || b || c", "(let [x = (BoolOr a (BoolOr b c))])"),
    ("let x = a, b || c", "(let [x = (, a (BoolOr b c))])"),
    ("let x = a || b, c", "(let [x = (, (BoolOr a b) c)])"),
    ("let x = a, b, c", "(let [x = (, a b c)])"),
    ("let x = a, b; c", "(let [x = (; (, a b) c)])"),
    ("let x = a; b, c;", "(let [x = (; a (, b c))])"),
    ("let x = a + - b * c", "(let [x = (Add a (Mul (- b) c))])"),
    ("let x = local_ a + b", "(let [x = (Add (local_ a) b)])"),
    (
        "let x = a + local_ b * c",
        "(let [x = (Add a (Mul (local_ b) c))])",
    ),
    (
        "let x = overwrite_ a with A b + c",
        "(let [x = (Add (overwrite_ a (A b)) c)])",
    ),
    ("let x = A b :: c", "(let [x = (:: (A b) c)])"),
    (
        "let x = a; b, c || d && e = f @ g :: h + i * j lsl - k l",
        "(let [x = (; a (, b (BoolOr c (BoolAnd d (Eq e (Append f (:: g (Add h (Mul i (Lsl j (- (@ k l))))))))))))])",
    ),
    (
        "let x = - k l lsl j * i + h :: g @ f = e && d || c, b; a",
        "(let [x = (; (, (BoolOr (BoolAnd (Eq (Append (:: (Add (Mul (Lsl (- (@ k l)) j) i) h) g) f) e) d) c) b) a)])",
    ),
    ("let x = a; b; c", "(let [x = (; a b c)])"),
    ("let x = (a - b) - c", "(let [x = (Sub <(Sub a b)> c)])"),
    ("let x = a - (b - c)", "(let [x = (Sub a <(Sub b c)>)])"),
    (
        "let x = a + b = c + d",
        "(let [x = (Eq (Add a b) (Add c d))])",
    ),
    ("let x = (a, b), c", "(let [x = (, <(, a b)> c)])"),
    (
        "let x = a * b; c * d",
        "(let [x = (; (Mul a b) (Mul c d))])",
    ),
];
