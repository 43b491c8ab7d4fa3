ghost use Rattle.std.specs.Prelude.{◌≡◌, ◌<◌, length, map, nat_eq};
ghost use Rattle.std.specs.Cmp.Lexicographic.{pointwise};
ghost use Rattle.ml_lexer.specs.Words.{words, signs, place_in};

static WORDS: [&str; 65] = [
    "and",
    "as",
    "asr",
    "begin",
    "borrow_",
    "else",
    "end",
    "exclave_",
    "false",
    "fun",
    "function",
    "global_",
    "if",
    "in",
    "land",
    "let",
    "local_",
    "lor",
    "lsl",
    "lsr",
    "lxor",
    "many_",
    "match",
    "mod",
    "of",
    "once_",
    "overwrite_",
    "rec",
    "shared_",
    "then",
    "true",
    "type",
    "unique_",
    "when",
    "with",
    "assert",
    "class",
    "constraint",
    "do",
    "done",
    "downto",
    "exception",
    "external",
    "for",
    "functor",
    "include",
    "inherit",
    "initializer",
    "lazy",
    "method",
    "module",
    "mutable",
    "new",
    "nonrec",
    "object",
    "open",
    "or",
    "private",
    "sig",
    "struct",
    "to",
    "try",
    "val",
    "virtual",
    "while",
];

static SIGNS: [&str; 29] = [
    "(", ")", "[", "]", "{", "}", ",", ";", ";;", ":", "::", ".", "_", "+", "-", "*", "/", "=",
    "<>", "<", ">", "<=", ">=", "&&", "||", "@", "^", "->", "|",
];

/// Whether two texts are one. Most differ in their first byte, so that one is compared here.
#[inline]
fn is_same(t: &[u8], text: &[u8]) -> bool
    ensures { result ≡ pointwise nat_eq t.now text.now }
{
    if t.len() > 0 && text.len() > 0 && t[0] != text[0] {
        return false;
    }
    t == text
}

/// The place of a text in a list.
#[tactic(auto, unfolding(crate::specs::Words::place_in))]
fn place_in(texts: &[&str], text: &[u8]) -> Option<u8>
    requires { length texts.now < 256 }
    ensures { result ≡ place_in (map (λ t. t.now) texts.now) text.now }
{
    for (n, t) in texts.iter().enumerate() {
        if is_same(t.as_bytes(), text) {
            return Some(n as u8);
        }
    }
    None
}

/// The number of a word of the language.
#[tactic(auto, unfolding(crate::specs::Words::place_in))]
pub fn word_number(name: &[u8]) -> Option<u8>
    ensures { result ≡ place_in words name.now }
{
    place_in(&WORDS, name)
}

/// The number of a sign of the language.
pub fn sign_number(sign: &[u8]) -> Option<u8>
    ensures { result ≡ place_in signs sign.now }
{
    place_in(&SIGNS, sign)
}
