ghost use Rattle.std.specs.Prelude.{◌≡◌, ◌≤◌, length};
ghost use Rattle.ml_cursor.specs.Lets.{closed_lets};

use ml_lexer::Token;

/// What is read, with what is known of it before the descent.
#[derive(Clone, Copy)]
pub struct Source<'a> {
    /// The bytes that the spans of the tokens count over.
    pub text: &'a [u8],
    pub tokens: &'a [Token],
    /// For each token whether it is a `let` that an `in` closes.
    pub lets: &'a [bool],
    ghost few: { length tokens.now ≤ 1000000 },
    ghost table: { lets.now ≡ closed_lets tokens.now },
}
