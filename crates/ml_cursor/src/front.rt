ghost use Rattle.std.specs.Prelude.{◌≡◌};
ghost use Rattle.ml_cursor.specs.Fronts.{of_sign, of_word, of_kind};

use ml_lexer::TokenKind;
use sqlite_items::at;

/// What stands at a place of a list of tokens: a token by its kind, each sign and each word a variant of
/// its own.
#[derive(Clone, Copy, Debug, PartialEq, Eq)]
pub enum Front {
    /// No token: the list has ended.
    Nothing,
    /// A lower name.
    Lower,
    /// An upper name.
    Upper,
    /// A type variable.
    TypeVar,
    /// A number literal.
    Int,
    /// A character literal.
    Char,
    /// A text literal.
    Text,
    /// `(`
    OpenParen,
    /// `)`
    CloseParen,
    /// `[`
    OpenBracket,
    /// `]`
    CloseBracket,
    /// `{`
    OpenBrace,
    /// `}`
    CloseBrace,
    /// `,`
    Comma,
    /// `;`
    Semi,
    /// `;;`
    SemiSemi,
    /// `:`
    Colon,
    /// `::`
    ColonColon,
    /// `.`
    Dot,
    /// `_`
    Underscore,
    /// `+`
    Plus,
    /// `-`
    Minus,
    /// `*`
    Star,
    /// `/`
    Slash,
    /// `=`
    Equal,
    /// `<>`
    NotEqual,
    /// `<`
    Less,
    /// `>`
    Greater,
    /// `<=`
    LessEqual,
    /// `>=`
    GreaterEqual,
    /// `&&`
    AndAnd,
    /// `||`
    OrOr,
    /// `@`
    At,
    /// `^`
    Caret,
    /// `->`
    Arrow,
    /// `|`
    Bar,
    /// `and`
    And,
    /// `as`
    As,
    /// `asr`
    Asr,
    /// `begin`
    Begin,
    /// `borrow_`
    Borrow,
    /// `else`
    Else,
    /// `end`
    End,
    /// `exclave_`
    Exclave,
    /// `false`
    False,
    /// `fun`
    Fun,
    /// `function`
    Function,
    /// `global_`
    Global,
    /// `if`
    If,
    /// `in`
    In,
    /// `land`
    Land,
    /// `let`
    Let,
    /// `local_`
    Local,
    /// `lor`
    Lor,
    /// `lsl`
    Lsl,
    /// `lsr`
    Lsr,
    /// `lxor`
    Lxor,
    /// `many_`
    Many,
    /// `match`
    Match,
    /// `mod`
    Mod,
    /// `of`
    Of,
    /// `once_`
    Once,
    /// `overwrite_`
    Overwrite,
    /// `rec`
    Rec,
    /// `shared_`
    Shared,
    /// `then`
    Then,
    /// `true`
    True,
    /// `type`
    TypeWord,
    /// `unique_`
    Unique,
    /// `when`
    When,
    /// `with`
    With,
    /// A word that no tree derives.
    Unused,
}

/// The signs in the order of their numbers.
static SIGNS: [Front; 29] = [
    Front::OpenParen,
    Front::CloseParen,
    Front::OpenBracket,
    Front::CloseBracket,
    Front::OpenBrace,
    Front::CloseBrace,
    Front::Comma,
    Front::Semi,
    Front::SemiSemi,
    Front::Colon,
    Front::ColonColon,
    Front::Dot,
    Front::Underscore,
    Front::Plus,
    Front::Minus,
    Front::Star,
    Front::Slash,
    Front::Equal,
    Front::NotEqual,
    Front::Less,
    Front::Greater,
    Front::LessEqual,
    Front::GreaterEqual,
    Front::AndAnd,
    Front::OrOr,
    Front::At,
    Front::Caret,
    Front::Arrow,
    Front::Bar,
];

/// The words of the language in the order of their numbers.
static WORDS: [Front; 35] = [
    Front::And,
    Front::As,
    Front::Asr,
    Front::Begin,
    Front::Borrow,
    Front::Else,
    Front::End,
    Front::Exclave,
    Front::False,
    Front::Fun,
    Front::Function,
    Front::Global,
    Front::If,
    Front::In,
    Front::Land,
    Front::Let,
    Front::Local,
    Front::Lor,
    Front::Lsl,
    Front::Lsr,
    Front::Lxor,
    Front::Many,
    Front::Match,
    Front::Mod,
    Front::Of,
    Front::Once,
    Front::Overwrite,
    Front::Rec,
    Front::Shared,
    Front::Then,
    Front::True,
    Front::TypeWord,
    Front::Unique,
    Front::When,
    Front::With,
];

#[tactic(auto, unfolding(crate::specs::Fronts::of_sign))]
fn of_sign(number: u8) -> Front
    ensures { result ≡ of_sign number }
{
    match at(&SIGNS, number as usize) {
        Some(front) => *front,
        None => Front::Unused,
    }
}

#[tactic(auto, unfolding(crate::specs::Fronts::of_word))]
fn of_word(number: u8) -> Front
    ensures { result ≡ of_word number }
{
    match at(&WORDS, number as usize) {
        Some(front) => *front,
        None => Front::Unused,
    }
}

/// What a token of this kind shows at the front of a list.
pub fn of_kind(kind: TokenKind) -> Front
    ensures { result ≡ of_kind kind }
{
    match kind {
        TokenKind::Lower => Front::Lower,
        TokenKind::Upper => Front::Upper,
        TokenKind::TypeVar => Front::TypeVar,
        TokenKind::Int(_) => Front::Int,
        TokenKind::Char(_) => Front::Char,
        TokenKind::Text => Front::Text,
        TokenKind::Word(number) => of_word(number),
        TokenKind::Sign(number) => of_sign(number),
    }
}
