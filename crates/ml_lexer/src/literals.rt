ghost use Rattle.std.specs.Prelude.{◌≡◌, ◌≤◌, ◌<◌, ◌+◌, ◌*◌, ℕ, List, Option, length, OnSome, IfSome, IfOk};
ghost use Rattle.ml_lexer.specs.Bytes.{byte};
ghost use Rattle.ml_lexer.specs.Numbers.{with_digit};
ghost use Rattle.ml_lexer.specs.Literals.{fixed, by_number, stands_for_itself, letter, numbered, escape, quoted, character, in_escape, in_text};
ghost use Rattle.ml_lexer.specs.Tokens.{TextFrom, IsTextToken, IsLiteral};
ghost use Rattle.ml_lexer.specs.Bounds.{CodedEndsWithin, QuoteEndsWithin, InTextEndsWithin, TextEndsWithin};

use crate::bytes::stands;
use crate::token::Token;
use oxml_base::{Items, Lit, NoMemory};
use std::alloc::Global;

/// What an escape or a character literal is.
#[derive(Clone, Copy)]
pub enum Coded {
    /// There is none.
    Absent,
    /// The escape is none of the language.
    Bad,
    /// The byte that it stands for, and the place behind it.
    Stands(u8, usize),
}

/// What stands at a place in a text literal.
#[derive(Clone, Copy)]
pub enum InText {
    /// The end of the file, or a backslash at it.
    Cut,
    Closes,
    /// A bad escape.
    Wrong,
    /// A byte, and the place behind it.
    Byte(u8, usize),
}

/// How a text literal ends.
#[derive(Clone, Copy)]
pub enum TextEnd {
    /// The place behind its closing quote.
    ClosedAt(usize),
    /// The place of a bad escape.
    BadAt(usize),
    Unclosed,
}

/// A value of few digits with one more from the text.
#[tactic(auto, unfolding(crate::specs::Bytes::byte))]
fn digit_at(base: u32, value: u32, text: &[u8], at: usize) -> Option<u32>
    requires low { 2 ≤ base }
    requires high { base ≤ 16 }
    requires few { value < 4096 }
    ensures value { result ≡ with_digit base value (byte text.now at) }
    ensures few { IfSome result (λ v. v < value * 16 + 16) }
    ensures within { OnSome result (at < length text.now) }
{
    let c = *text.get(at)?;
    let digit = char::from(c).to_digit(base)?;
    Some(value * base + digit)
}

#[tactic(auto, unfolding(crate::specs::Literals::fixed))]
fn two_digits(base: u32, text: &[u8], at: usize) -> Option<u32>
    requires low { 2 ≤ base }
    requires high { base ≤ 16 }
    requires place { at ≤ length text.now }
    ensures value { result ≡ fixed base text.now 2 0 at }
    ensures within { OnSome result (at + 2 ≤ length text.now) }
{
    let first = digit_at(base, 0, text, at)?;
    digit_at(base, first, text, at + 1)
}

#[tactic(auto, unfolding(crate::specs::Literals::fixed))]
fn three_digits(base: u32, text: &[u8], at: usize) -> Option<u32>
    requires low { 2 ≤ base }
    requires high { base ≤ 16 }
    requires place { at ≤ length text.now }
    ensures value { result ≡ fixed base text.now 3 0 at }
    ensures within { OnSome result (at + 3 ≤ length text.now) }
{
    let first = digit_at(base, 0, text, at)?;
    let second = digit_at(base, first, text, at + 1)?;
    digit_at(base, second, text, at + 2)
}

/// An escape that ends at a place and names its byte by a number.
fn by_number(end: usize, value: Option<u32>) -> Coded
    ensures { result ≡ by_number end value }
{
    match value {
        Some(value) if value <= 255 => Coded::Stands(value as u8, end),
        _ => Coded::Bad,
    }
}

/// Whether a backslash before a byte leaves it as it is.
fn stands_for_itself(c: u8) -> bool
    ensures { result ≡ stands_for_itself c }
{
    matches!(c, b'\\' | b'"' | b'\'' | b' ')
}

/// The byte of an escape of one letter.
fn letter(c: u8) -> Option<u8>
    ensures { result ≡ letter c }
{
    if stands_for_itself(c) {
        Some(c)
    } else if c == b'n' {
        Some(b'\n')
    } else if c == b't' {
        Some(b'\t')
    } else if c == b'b' {
        Some(8)
    } else if c == b'r' {
        Some(b'\r')
    } else {
        None
    }
}

/// An escape of digits, by the byte behind its backslash.
fn numbered(text: &[u8], at: usize, c: u8) -> Coded
    requires { at + 2 ≤ length text.now }
    ensures numbered { result ≡ numbered text.now at c }
    ensures within { CodedEndsWithin at (length text.now) result }
{
    if c.is_ascii_digit() {
        by_number(at + 4, three_digits(10, text, at + 1))
    } else if c == b'x' {
        by_number(at + 4, two_digits(16, text, at + 2))
    } else if c == b'o' {
        by_number(at + 5, three_digits(8, text, at + 2))
    } else {
        Coded::Bad
    }
}

/// The escape whose backslash stands at a place.
#[tactic(auto, unfolding(crate::specs::Literals::escape, crate::specs::Bytes::byte))]
fn escape_at(text: &[u8], at: usize) -> Coded
    requires { at < length text.now }
    ensures escape { result ≡ escape text.now at }
    ensures within { CodedEndsWithin at (length text.now) result }
{
    let Some(&c) = text.get(at + 1) else {
        return Coded::Absent;
    };
    match letter(c) {
        Some(b) => Coded::Stands(b, at + 2),
        None => numbered(text, at, c),
    }
}

/// What stands behind the quote at a place, if the closing quote stands behind that.
fn quoted(text: &[u8], at: usize, coded: Coded) -> Coded
    requires { QuoteEndsWithin at (length text.now) coded }
    ensures quoted { result ≡ quoted text.now coded }
    ensures within { QuoteEndsWithin at (length text.now) result }
{
    match coded {
        Coded::Absent => Coded::Absent,
        Coded::Bad => Coded::Bad,
        Coded::Stands(b, end) if stands(text, end, b'\'') => Coded::Stands(b, end + 1),
        Coded::Stands(_, _) => Coded::Absent,
    }
}

/// The character literal whose first quote stands at a place.
#[tactic(auto, unfolding(crate::specs::Literals::character, crate::specs::Bytes::byte))]
pub fn character_at(text: &[u8], at: usize) -> Coded
    requires { at < length text.now }
    ensures character { result ≡ character text.now at }
    ensures within { QuoteEndsWithin at (length text.now) result }
{
    let Some(&c) = text.get(at + 1) else {
        return Coded::Absent;
    };
    if c == b'\\' {
        quoted(text, at, escape_at(text, at + 1))
    } else if c == b'\'' || c == b'\n' || c == b'\r' {
        Coded::Absent
    } else {
        quoted(text, at, Coded::Stands(c, at + 2))
    }
}

fn in_escape(coded: Coded) -> InText
    ensures { result ≡ in_escape coded }
{
    match coded {
        Coded::Absent => InText::Cut,
        Coded::Bad => InText::Wrong,
        Coded::Stands(b, end) => InText::Byte(b, end),
    }
}

/// What stands at a place in a text literal.
#[tactic(auto, unfolding(crate::specs::Literals::in_text, crate::specs::Bytes::byte))]
fn in_text_at(text: &[u8], at: usize) -> InText
    requires { at ≤ length text.now }
    ensures here { result ≡ in_text text.now at }
    ensures within { InTextEndsWithin at (length text.now) result }
{
    let Some(&c) = text.get(at) else {
        return InText::Cut;
    };
    if c == b'"' {
        InText::Closes
    } else if c == b'\\' {
        in_escape(escape_at(text, at))
    } else {
        InText::Byte(c, at + 1)
    }
}

/// Where the text literal ends whose first byte stands at a place.
pub fn text_end(text: &[u8], at: usize) -> TextEnd
    requires { at ≤ length text.now }
    ensures end { (bytes : List ℕ) × TextFrom text.now at bytes result }
    ensures within { TextEndsWithin at (length text.now) result }
{
    let mut here = at;
    'bytes: loop {
        match in_text_at(text, here) {
            InText::Cut => return TextEnd::Unclosed,
            InText::Closes => return TextEnd::ClosedAt(here + 1),
            InText::Wrong => return TextEnd::BadAt(here),
            InText::Byte(_, next) => here = next,
        }
    }
}

/// The bytes that a text literal stands for, its escapes replaced. The token is one of the kind
/// `Text` that `lex` answered for a part of this text.
pub fn text_bytes(alloc: Global, text: &[u8], token: Token) -> Result<Lit, NoMemory>
    requires { IsTextToken text.now token }
    ensures { IfOk result (λ lit. IsLiteral text.now token lit.bytes) }
{
    let mut bytes = Items::new(alloc);
    let mut here = token.span.start as usize + 1;
    'bytes: loop {
        match in_text_at(text, here) {
            InText::Byte(b, next) => {
                bytes.push(b)?;
                here = next;
            }
            InText::Closes => return Ok(Lit { bytes }),
            InText::Cut | InText::Wrong => unreachable!(),
        }
    }
}
