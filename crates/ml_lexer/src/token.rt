use oxml_base::Span;

/// A token, and the bytes of the whole text that it takes up.
#[derive(Clone, Copy, Debug, PartialEq, Eq)]
pub struct Token {
    pub kind: TokenKind,
    pub span: Span,
}

/// The kinds of tokens (OCaml manual, lexical conventions). A name's text is the slice of its span.
#[derive(Clone, Copy, Debug, PartialEq, Eq)]
pub enum TokenKind {
    /// A name that begins with a lower-case letter or `_`.
    Lower,
    /// A name that begins with an upper-case letter.
    Upper,
    /// A quote and a lower name.
    TypeVar,
    /// A number literal, its value in 63 bits.
    Int(i64),
    /// A character literal.
    Char(u8),
    /// A text literal, whose bytes `text_bytes` gives.
    Text,
    /// A word of the language, by its number in `word`.
    Word(u8),
    /// A sign or an operator, by its number in `sign`.
    Sign(u8),
}
