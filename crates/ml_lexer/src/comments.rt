ghost use Rattle.std.specs.Prelude.{◌≡◌, ◌≤◌, ◌<◌, ◌+◌, ℕ, Bool, false, Option, length, drop, IfSome};
ghost use Rattle.ml_lexer.specs.Bytes.{byte};
ghost use Rattle.ml_lexer.specs.Literals.{text_end, passes_text, passes_character, character, in_comment, HasNoText};
ghost use Rattle.ml_lexer.specs.Tokens.{CommentFrom};
ghost use Rattle.ml_lexer.specs.Bounds.{InCommentEndsWithin, IsPast};

use crate::bytes::stands;
use crate::literals::{Coded, character_at};

/// What stands at a place in a comment.
#[derive(Clone, Copy)]
pub enum InComment {
    /// The end of the file.
    Over,
    Opens,
    Leaves,
    /// A byte or a literal, and the place behind it.
    Passes(usize),
}

/// Where a text literal in a comment ends, from a place behind its first quote on.
#[tactic(auto, unfolding(crate::specs::Literals::text_end))]
fn text_end(text: &[u8], at: usize) -> Option<usize>
    requires { at ≤ length text.now }
    ensures end { result ≡ text_end false at (drop at text.now) }
    ensures within { IfSome result (λ end. IsPast at (length text.now) end) }
{
    let mut behind_backslash = false;
    let mut here = at;
    while here < text.len() {
        let c = text[here];
        if behind_backslash {
            behind_backslash = false;
        } else if c == b'"' {
            return Some(here + 1);
        } else {
            behind_backslash = c == b'\\';
        }
        here += 1;
    }
    None
}

/// What the quote at a place in a comment begins. Once one begins no text, no later one does, so
/// that the search for an end is made once.
fn passes_text(text: &[u8], at: usize, texts_end: &mut bool) -> InComment
    requires place { at < length text.now }
    requires quote { byte text.now at ≡ 34 }
    requires none { texts_end.old ≡ false → HasNoText (drop at text.now) }
    ensures here { result ≡ passes_text at (text_end false (at + 1) (drop (at + 1) text.now)) }
    ensures within { InCommentEndsWithin at (length text.now) result }
    ensures none { texts_end.new ≡ false → HasNoText (drop at text.now) }
{
    if !*texts_end {
        return InComment::Passes(at + 1);
    }
    match text_end(text, at + 1) {
        Some(end) => InComment::Passes(end),
        None => {
            *texts_end = false;
            InComment::Passes(at + 1)
        }
    }
}

fn passes_character(text: &[u8], at: usize) -> InComment
    requires { at < length text.now }
    ensures here { result ≡ passes_character at (character text.now at) }
    ensures within { InCommentEndsWithin at (length text.now) result }
{
    match character_at(text, at) {
        Coded::Stands(_, end) => InComment::Passes(end),
        _ => InComment::Passes(at + 1),
    }
}

/// What stands at a place in a comment. `texts_end` is false once a quote was seen that begins no
/// text.
#[tactic(auto, unfolding(crate::specs::Literals::in_comment, crate::specs::Bytes::byte))]
fn in_comment_at(text: &[u8], at: usize, texts_end: &mut bool) -> InComment
    requires place { at ≤ length text.now }
    requires none { texts_end.old ≡ false → HasNoText (drop at text.now) }
    ensures here { result ≡ in_comment text.now at }
    ensures within { InCommentEndsWithin at (length text.now) result }
    ensures none { texts_end.new ≡ false → HasNoText (drop at text.now) }
{
    let Some(&c) = text.get(at) else {
        return InComment::Over;
    };
    if c == b'"' {
        passes_text(text, at, texts_end)
    } else if c == b'\'' {
        passes_character(text, at)
    } else if c == b'(' && stands(text, at + 1, b'*') {
        InComment::Opens
    } else if c == b'*' && stands(text, at + 1, b')') {
        InComment::Leaves
    } else {
        InComment::Passes(at + 1)
    }
}

/// Where the comment ends whose `(*` stands before a place, if it does.
pub fn comment_end(text: &[u8], at: usize) -> Option<usize>
    requires { at ≤ length text.now }
    ensures end { CommentFrom text.now 0 at result }
    ensures within { IfSome result (λ end. IsPast at (length text.now) end) }
{
    let mut inner: usize = 0;
    let mut here = at;
    let mut texts_end = true;
    'comment: loop {
        match in_comment_at(text, here, &mut texts_end) {
            InComment::Over => return None,
            InComment::Opens => {
                inner += 1;
                here += 2;
            }
            InComment::Leaves => {
                here += 2;
                if inner == 0 {
                    return Some(here);
                }
                inner -= 1;
            }
            InComment::Passes(next) => here = next,
        }
    }
}
