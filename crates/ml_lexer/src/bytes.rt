ghost use Rattle.std.specs.Prelude.{◌≡◌, ◌==◌, ◌≤◌, ◌<◌, length};
ghost use Rattle.std.specs.Bool.{OnTrue};
ghost use Rattle.ml_lexer.specs.Bytes.{byte, class, belongs, run_end, is_blank, begins_lower, begins_operator};

/// The classes of bytes, by what a token that begins with one is.
#[derive(Clone, Copy)]
pub enum Class {
    Blank,
    /// A lower-case letter or `_`.
    SmallLetter,
    CapitalLetter,
    Digit,
    Quote,
    DoubleQuote,
    /// `(`, which may open a comment.
    Bracket,
    /// A byte that an operator begins with.
    Mark,
    Other,
}

/// The kinds of runs, of which a token takes the longest.
#[derive(Clone, Copy)]
pub enum Run {
    Name,
    Number,
    Operator,
}

/// The byte at a place; 256, which is no byte, behind the end.
#[tactic(auto, unfolding(crate::specs::Bytes::byte))]
pub fn byte_at(text: &[u8], at: usize) -> u16
    ensures { result ≡ byte text.now at }
{
    match text.get(at) {
        Some(b) => u16::from(*b),
        None => 256,
    }
}

/// Whether a byte stands at a place.
#[tactic(auto, unfolding(crate::specs::Bytes::byte))]
pub fn stands(text: &[u8], at: usize, b: u8) -> bool
    ensures value { result ≡ (byte text.now at == b) }
    ensures within { OnTrue result (at < length text.now) }
{
    match text.get(at) {
        Some(c) => *c == b,
        None => false,
    }
}

fn is_blank(b: u8) -> bool
    ensures { result ≡ is_blank b }
{
    matches!(b, b' ' | b'\t' | b'\n' | b'\r' | 12)
}

pub fn begins_lower(b: u8) -> bool
    ensures { result ≡ begins_lower b }
{
    b.is_ascii_lowercase() || b == b'_'
}

fn begins_operator(b: u8) -> bool
    ensures { result ≡ begins_operator b }
{
    matches!(
        b,
        b'$' | b'&' | b'*' | b'+' | b'-' | b'/' | b'=' | b'>' | b'@' | b'^' | b'|' | b'%' | b'<'
    )
}

#[tactic(auto, unfolding(crate::specs::Bytes::class))]
pub fn class_of(b: u8) -> Class
    ensures { result ≡ class b }
{
    if is_blank(b) {
        Class::Blank
    } else if begins_lower(b) {
        Class::SmallLetter
    } else if b.is_ascii_uppercase() {
        Class::CapitalLetter
    } else if b.is_ascii_digit() {
        Class::Digit
    } else if b == b'\'' {
        Class::Quote
    } else if b == b'"' {
        Class::DoubleQuote
    } else if b == b'(' {
        Class::Bracket
    } else if begins_operator(b) {
        Class::Mark
    } else {
        Class::Other
    }
}

#[tactic(auto, unfolding(crate::specs::Bytes::belongs))]
fn belongs(run: Run, b: u8) -> bool
    ensures { result ≡ belongs run b }
{
    match run {
        Run::Name => b.is_ascii_alphanumeric() || b == b'_' || b == b'\'',
        Run::Number => b.is_ascii_alphanumeric() || b == b'_',
        Run::Operator => begins_operator(b) || matches!(b, b':' | b'.' | b'!' | b'?' | b'~'),
    }
}

/// Where the longest run from a place on ends.
#[tactic(auto, unfolding(crate::specs::Bytes::run_end))]
pub fn run_end(run: Run, text: &[u8], at: usize) -> usize
    requires { at ≤ length text.now }
    ensures end { result ≡ run_end run text.now at }
    ensures forward { at ≤ result }
    ensures within { result ≤ length text.now }
{
    let mut end = at;
    while end < text.len() && belongs(run, text[end]) {
        end += 1;
    }
    end
}
