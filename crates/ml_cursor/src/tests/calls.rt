//! What stands at each place of a text, and what each call makes of it.

use crate::{
    Front, ParseErr, accept, char_at, extent, front_at, int_at, pass, refusal_at, skip, span_at,
    stands, take,
};
use ml_lexer::{Token, lex};
use oxml_base::{Items, Span};
use std::alloc::{AllocError, Global};
use std::fmt::Write;
use std::test::Fail;

/// The signs, the words and one token of each other kind, and what each shows.
const FRONTS: [(&str, &str); 4] = [
    (
        "( ) [ ] { } , ; ;; : :: . _ + - * / = <> < > <= >= && || @ ^ -> |",
        "OpenParen CloseParen OpenBracket CloseBracket OpenBrace CloseBrace Comma Semi SemiSemi \
         Colon ColonColon Dot Underscore Plus Minus Star Slash Equal NotEqual Less Greater \
         LessEqual GreaterEqual AndAnd OrOr At Caret Arrow Bar Nothing",
    ),
    (
        "and as asr begin borrow_ else end exclave_ false fun function global_ if in land let \
         local_ lor lsl lsr lxor many_ match mod of once_ overwrite_ rec shared_ then true type \
         unique_ when with",
        "And As Asr Begin Borrow Else End Exclave False Fun Function Global If In Land Let Local \
         Lor Lsl Lsr Lxor Many Match Mod Of Once Overwrite Rec Shared Then True TypeWord Unique \
         When With Nothing",
    ),
    ("assert while object", "Unused Unused Unused Nothing"),
    (
        "a A 'a 1 'x' \"t\"",
        "Lower Upper TypeVar Int Char Text Nothing",
    ),
];

fn tokens_of(alloc: Global, text: &str) -> Result<Items<Token>, Fail> {
    let bytes = text.as_bytes();
    let end = u32::try_from(bytes.len()).ok().ok_or("long")?;
    let tokens = lex(alloc, bytes, Span { start: 0, end })
        .ok()
        .ok_or("no tokens")?;
    Ok(tokens)
}

/// What stands at each place, up to the end.
fn fronts(alloc: Global, tokens: &[Token]) -> Result<String, AllocError> {
    let mut out = String::new(alloc);
    for at in 0..tokens.len() {
        let front = front_at(tokens, at);
        write!(out, "{front:?} ")?;
    }
    let last = front_at(tokens, tokens.len());
    write!(out, "{last:?}")?;
    Ok(out)
}

#[test]
fn each_front(rt: HostRuntime) -> Result<(), Fail> {
    for (text, expected) in &FRONTS {
        let tokens = tokens_of(rt.alloc(), text)?;
        let found = fronts(rt.alloc(), tokens.as_slice())?;
        assert_eq!(&rt; found.as_str(), *expected);
    }
    Ok(())
}

#[test]
fn each_call(rt: HostRuntime) -> Result<(), Fail> {
    let list = tokens_of(rt.alloc(), "let x = 'c' + 12")?;
    let tokens = list.as_slice();
    let mut at = 0;
    assert_eq!(&rt;
        take(tokens, &mut at, Front::Let),
        Ok(Span { start: 0, end: 3 })
    );
    assert!(&rt; !accept(tokens, &mut at, Front::Upper));
    assert!(&rt; accept(tokens, &mut at, Front::Lower));
    assert_eq!(&rt; span_at(tokens, at), Span { start: 6, end: 7 });
    pass(tokens, &mut at);
    assert_eq!(&rt; char_at(tokens, at), b'c');
    skip(tokens, &mut at, 2);
    assert_eq!(&rt; int_at(tokens, at), 12);
    assert!(&rt; stands(tokens, at, Front::Int));
    assert_eq!(&rt; extent(tokens, 1, 3), Span { start: 4, end: 7 });
    let refused = take(tokens, &mut at, Front::Char);
    assert_eq!(&rt; refused, Err(ParseErr::Refused(refusal_at(tokens, 5))));
    assert_eq!(&rt; refusal_at(tokens, 5).span, Span { start: 14, end: 16 });
    assert_eq!(&rt; refusal_at(tokens, 6).span, Span { start: 16, end: 16 });
    assert_eq!(&rt; refusal_at(tokens, 6).rule.number(), 10);
    Ok(())
}
