/// The definitions that stand before each program.
pub const PRELUDE: &[u8] = b"let not b = if b then false else true
let fst (a, _) = a
let snd (_, b) = b
let ignore _ = ()
let print_newline () = print_char '\\n'
let print_endline s = print_string s; print_char '\\n'
let rec append__ a b = match a with [] -> b | h :: t -> h :: append__ t b
;;
";
