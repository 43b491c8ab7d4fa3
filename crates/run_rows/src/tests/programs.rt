//! The programs that several tables speak of.

/// A partial application that is called later.
pub const INCREMENT: &str = "let add x y = x + y let inc = add 1 let () = print_int (inc 41)";

/// 100,001 calls in tail position, each but the last of which makes a tuple.
pub const LOOP: &str = "let rec loop n = if n = 0 then () else match (n, n) with (a, b) -> \
                    loop (a + b - n - 1) let () = loop 100000";

/// 100,001 calls in one another.
pub const DEEP: &str = "let rec f n = if n = 0 then 0 else 1 + f (n - 1) \
                    let () = print_string \"go\\n\"; print_int (f 100000)";

/// 100,001 calls in tail position that count.
pub const COUNT: &str = "let rec g n acc = if n = 0 then acc else g (n - 1) (acc + 1) \
                     let () = print_int (g 100000 0)";

/// A list of 1,000 numbers is made, and then turned round by overwriting its cells.
pub const REVERSE: &str = "let rec upto n = if n = 0 then [] else n :: upto (n - 1)\n\
                       let rec rev xs acc = match xs with [] -> acc \
                       | h :: t -> rev t (overwrite_ xs with (h :: acc))\n\
                       let () = match rev (upto 1000) [] with [] -> () | h :: _ -> print_int h";

/// A tree of an expression, and its value; three calls of `eval` stand in one another.
pub const EVAL: &str = "type expr = Num of int | Add of expr * expr | Mul of expr * expr\n\
                    let rec eval e = match e with Num n -> n | Add (a, b) -> eval a + eval b \
                    | Mul (a, b) -> eval a * eval b\n\
                    let () = print_endline (string_of_int \
                    (eval (Add (Num 2, Mul (Num 4, Num 10)))))";

/// A pair that is made in the region of the caller.
pub const HANDED: &str =
    "let f x = exclave_ (x, x) let () = match f 1 with (a, b) -> print_int (a + b)";

/// 21 calls in one another.
pub const TWENTY: &str =
    "let rec f n = if n = 0 then 0 else 1 + f (n - 1) let () = print_int (f 20)";
