ghost use Rattle.std.specs.Prelude.{◌≡◌, ◌≤◌, ◌<◌, ◌+◌, ◌^◌, ◌&&◌, ℕ, List, Option, length, slice_range};
ghost use Rattle.ml_lexer.specs.Bytes.{byte, run_end};
ghost use Rattle.ml_lexer.specs.Literals.{character};
ghost use Rattle.ml_lexer.specs.declared.bytes.Run.TheVariants.{Name};
ghost use Rattle.ml_lexer.specs.Tokens.{refusal, named, sign_to, number_to, is_pair, is_lower_name, variable_to, quote_by, name_to, bracket, other, look_by, look, Begins};
ghost use Rattle.ml_lexer.specs.Bounds.{LookEndsWithin, PieceEndsWithin};
ghost use Rattle.ml_lexer.specs.Words.{words, place_in};

use crate::bytes::{Class, Run, begins_lower, byte_at, class_of, run_end, stands};
use crate::comments::comment_end;
use crate::literals::{Coded, TextEnd, character_at, text_end};
use crate::numbers::number;
use crate::sign;
use crate::token::TokenKind;
use crate::words::{sign_number, word_number};
use oxml_base::{Refusal, Rule, Span};

/// What a place of a text begins, as far as a few bytes and runs show.
#[derive(Clone, Copy)]
pub enum Look {
    /// The end of the text.
    Nothing,
    Space,
    /// A token, and the place behind it.
    Plain(TokenKind, usize),
    Fault(Refusal),
    OpensComment,
    OpensText,
}

/// A blank, a comment or a token, with the place behind it, or a fault.
#[derive(Clone, Copy)]
pub enum Piece {
    Skips(usize),
    Takes(TokenKind, usize),
    Faults(Refusal),
}

fn refusal(rule: Rule, from: usize, to: usize) -> Refusal
    requires order { from ≤ to }
    requires small { to < 2 ^ 32 }
    ensures { result ≡ refusal rule from to }
{
    Refusal {
        rule,
        span: Span {
            start: from as u32,
            end: to as u32,
        },
    }
}

/// What a run that begins with a small letter is: a word, the sign `_` or a name.
fn named(run: &[u8]) -> TokenKind
    ensures { result ≡ named run.now (place_in words run.now) }
{
    match word_number(run) {
        Some(n) => TokenKind::Word(n),
        None if run == b"_".as_slice() => TokenKind::Sign(sign::UNDERSCORE),
        None => TokenKind::Lower,
    }
}

/// The sign that the bytes up to a place are; a fault where none is listed.
fn sign_to(text: &[u8], at: usize, end: usize) -> Look
    requires order { at ≤ end }
    requires within { end ≤ length text.now }
    requires small { length text.now < 2 ^ 32 }
    ensures sign { result ≡ sign_to text.now at end }
    ensures within { at < end → LookEndsWithin at (length text.now) result }
{
    match sign_number(&text[at..end]) {
        Some(n) => Look::Plain(TokenKind::Sign(n), end),
        None => Look::Fault(refusal(Rule::OutsideAlphabet, at, end)),
    }
}

fn number_to(after_minus: bool, text: &[u8], at: usize, end: usize) -> Look
    requires order { at ≤ end }
    requires within { end ≤ length text.now }
    requires small { length text.now < 2 ^ 32 }
    ensures number { result ≡ number_to after_minus text.now at end }
    ensures within { at < end → LookEndsWithin at (length text.now) result }
{
    match number(after_minus, &text[at..end]) {
        Some(value) => Look::Plain(TokenKind::Int(value), end),
        None => Look::Fault(refusal(Rule::BadNumber, at, end)),
    }
}

/// Whether two bytes are read together: `;;`, `::`, `:=`, `:>` and `..`.
fn is_pair(first: u16, second: u16) -> bool
    ensures { result ≡ is_pair first second }
{
    if first == 59 {
        second == 59
    } else if first == 58 {
        second == 58 || second == 61 || second == 62
    } else if first == 46 {
        second == 46
    } else {
        false
    }
}

/// Whether a run is a lower name, which is more than `_`.
#[tactic(auto, unfolding(crate::specs::Bytes::byte))]
fn is_lower_name(run: &[u8]) -> bool
    ensures { result ≡ is_lower_name run.now }
{
    let Some(&first) = run.first() else {
        return false;
    };
    begins_lower(first) && !(run == b"_".as_slice())
}

/// The type variable whose quote stands at a place; a fault where no name stands behind it.
fn variable_at(text: &[u8], at: usize) -> Look
    requires place { at < length text.now }
    requires small { length text.now < 2 ^ 32 }
    ensures variable { result ≡ variable_to text.now at (run_end Name text.now (at + 1)) }
    ensures within { LookEndsWithin at (length text.now) result }
{
    let end = run_end(Run::Name, text, at + 1);
    if is_lower_name(&text[at + 1..end]) {
        Look::Plain(TokenKind::TypeVar, end)
    } else {
        Look::Fault(refusal(Rule::OutsideAlphabet, at, at + 1))
    }
}

/// What a quote at a place begins: a character, a type variable or a fault.
fn quote_at(text: &[u8], at: usize) -> Look
    requires place { at < length text.now }
    requires small { length text.now < 2 ^ 32 }
    ensures quote { result ≡ quote_by text.now at (character text.now at) }
    ensures within { LookEndsWithin at (length text.now) result }
{
    match character_at(text, at) {
        Coded::Stands(b, end) => Look::Plain(TokenKind::Char(b), end),
        Coded::Bad => Look::Fault(refusal(Rule::BadEscape, at + 1, at + 3)),
        Coded::Absent => variable_at(text, at),
    }
}

/// What `(` at a place begins: a comment where `*` stands behind it.
#[tactic(auto, unfolding(crate::specs::Bytes::byte))]
fn bracket_at(text: &[u8], at: usize) -> Look
    requires place { at < length text.now }
    requires small { length text.now < 2 ^ 32 }
    ensures bracket { result ≡ bracket text.now at }
    ensures within { LookEndsWithin at (length text.now) result }
{
    if stands(text, at + 1, b'*') {
        Look::OpensComment
    } else {
        sign_to(text, at, at + 1)
    }
}

/// The separator of one byte or two at a place; a fault where there is none.
#[tactic(auto, unfolding(crate::specs::Bytes::byte))]
fn other_at(text: &[u8], at: usize) -> Look
    requires place { at < length text.now }
    requires small { length text.now < 2 ^ 32 }
    ensures other { result ≡ other text.now at }
    ensures within { LookEndsWithin at (length text.now) result }
{
    if at + 1 < text.len() && is_pair(byte_at(text, at), byte_at(text, at + 1)) {
        sign_to(text, at, at + 2)
    } else {
        sign_to(text, at, at + 1)
    }
}

/// What a byte of a class at a place begins.
fn look_by(class: Class, text: &[u8], at: usize, after_minus: bool) -> Look
    requires place { at < length text.now }
    requires small { length text.now < 2 ^ 32 }
    ensures look { result ≡ look_by class after_minus text.now at }
    ensures within { LookEndsWithin at (length text.now) result }
{
    match class {
        Class::Blank => Look::Space,
        Class::SmallLetter => {
            let end = run_end(Run::Name, text, at + 1);
            Look::Plain(named(&text[at..end]), end)
        }
        Class::CapitalLetter => Look::Plain(TokenKind::Upper, run_end(Run::Name, text, at + 1)),
        Class::Digit => number_to(after_minus, text, at, run_end(Run::Number, text, at + 1)),
        Class::Quote => quote_at(text, at),
        Class::DoubleQuote => Look::OpensText,
        Class::Bracket => bracket_at(text, at),
        Class::Mark => sign_to(text, at, run_end(Run::Operator, text, at + 1)),
        Class::Other => other_at(text, at),
    }
}

/// What a place of a text begins.
#[tactic(auto, unfolding(crate::specs::Tokens::look, crate::specs::Bytes::byte))]
fn look_at(text: &[u8], at: usize, after_minus: bool) -> Look
    requires place { at < length text.now }
    requires small { length text.now < 2 ^ 32 }
    ensures look { result ≡ look after_minus text.now at }
    ensures within { LookEndsWithin at (length text.now) result }
{
    look_by(class_of(text[at]), text, at, after_minus)
}

/// The piece that begins at a place of a text.
pub fn piece_at(text: &[u8], at: usize, after_minus: bool) -> Piece
    requires place { at < length text.now }
    requires small { length text.now < 2 ^ 32 }
    ensures begins { Begins text.now after_minus at result }
    ensures within { PieceEndsWithin at (length text.now) result }
{
    match look_at(text, at, after_minus) {
        Look::Nothing => unreachable!(),
        Look::Space => Piece::Skips(at + 1),
        Look::Plain(kind, end) => Piece::Takes(kind, end),
        Look::Fault(fault) => Piece::Faults(fault),
        Look::OpensComment => match comment_end(text, at + 2) {
            Some(end) => Piece::Skips(end),
            None => Piece::Faults(refusal(Rule::OpenComment, at, at + 2)),
        },
        Look::OpensText => match text_end(text, at + 1) {
            TextEnd::ClosedAt(end) => Piece::Takes(TokenKind::Text, end),
            TextEnd::BadAt(bad) => Piece::Faults(refusal(Rule::BadEscape, bad, bad + 2)),
            TextEnd::Unclosed => Piece::Faults(refusal(Rule::OpenText, at, at + 1)),
        },
    }
}
