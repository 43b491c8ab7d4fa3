ghost use Rattle.std.specs.Prelude.{◌≡◌, ◌≤◌, ◌<◌, ◌^◌, length, All, IfOk, IfErr};
ghost use Rattle.ml_lexer.specs.Tokens.{Tokens, AreInOrder, IsSound, is_minus};
ghost use Rattle.ml_lexer.specs.Answers.{Explains};

use crate::errors::LexErr;
use crate::pieces::{Piece, piece_at};
use crate::sign;
use crate::token::{Token, TokenKind};
use oxml_base::{Items, Limit, Span};
use std::alloc::Global;

/// The most tokens of a source.
pub const MAX_TOKENS: usize = 200_000;

pub fn is_minus(kind: TokenKind) -> bool
    ensures { result ≡ is_minus kind }
{
    match kind {
        TokenKind::Sign(n) => n == sign::MINUS,
        _ => false,
    }
}

fn span(from: usize, to: usize) -> Span
    requires order { from ≤ to }
    requires small { to < 2 ^ 32 }
    ensures { result ≡ record { start = from; end = to } }
{
    Span {
        start: from as u32,
        end: to as u32,
    }
}

/// The tokens of a part of a text, in order. Spans count over the whole text.
///
/// `Refused` comes where the part has a fault, at its first, by rules 1 to 5; `Limit` where more
/// than `MAX_TOKENS` tokens stand before the first fault or the end.
pub fn lex(alloc: Global, text: &[u8], part: Span) -> Result<Items<Token>, LexErr>
    requires order { part.start ≤ part.end }
    requires within { part.end ≤ length text.now }
    ensures ok { IfOk result (Tokens text.now part) }
    ensures few { IfOk result (λ tokens. length tokens ≤ MAX_TOKENS) }
    ensures order { IfOk result (λ tokens. AreInOrder part.start tokens part.end) }
    ensures texts { IfOk result (All (IsSound text.now)) }
    ensures err { IfErr result (Explains text.now part) }
{
    let bytes = &text[..part.end as usize];
    let mut tokens = Items::new(alloc);
    let mut at = part.start as usize;
    let mut after_minus = false;
    'pieces: while at < bytes.len() {
        match piece_at(bytes, at, after_minus) {
            Piece::Skips(next) => at = next,
            Piece::Faults(fault) => return Err(LexErr::Refused(fault)),
            Piece::Takes(kind, next) => {
                if tokens.len() == MAX_TOKENS {
                    return Err(LexErr::Limit(Limit::Tokens(MAX_TOKENS as u64 + 1)));
                }
                let token = Token {
                    kind,
                    span: span(at, next),
                };
                if tokens.push(token).is_err() {
                    return Err(LexErr::NoMemory);
                }
                after_minus = is_minus(kind);
                at = next;
            }
        }
    }
    Ok(tokens)
}
