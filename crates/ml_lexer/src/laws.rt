//! What holds of the definition of tokens: a part of a text divides into one list of tokens, or has
//! one first fault, and never both.

ghost use Rattle.std.specs.Prelude.{◌≡◌, ◌≤◌, ℕ, Bool, List, length, MatchBool};
ghost use Rattle.oxml_base.specs.declared.refusal.Refusal.{Refusal};
ghost use Rattle.oxml_base.specs.declared.span.Span.{Span as Part};
ghost use Rattle.ml_lexer.specs.declared.token.Token.{Token};
ghost use Rattle.ml_lexer.specs.declared.pieces.Piece.{Piece as Beginning};
ghost use Rattle.ml_lexer.specs.declared.pieces.Piece.TheVariants.{Faults};
ghost use Rattle.ml_lexer.specs.Tokens.{Begins, Tokens, IsBad, StartsWith, IsLiteral};

use crate::lexer::is_minus;
use crate::pieces::{Piece, piece_at};
use oxml_base::Span;

/// A part divides into one list of tokens at most.
pub fn at_most_one_list()
    ensures { (text : List ℕ) (part : Part) (ts us : List Token) →
        Tokens text part ts → Tokens text part us → us ≡ ts }
{}

/// A part that divides has no fault.
pub fn tokens_or_fault()
    ensures { (text : List ℕ) (part : Part) (ts us : List Token) (r : Refusal) →
        Tokens text part ts → IsBad text part us r → ⊥ }
{}

/// Where a fault stands, nothing else begins.
pub fn nothing_beside_a_fault()
    ensures { (text : List ℕ) (after_minus : Bool) (at : ℕ) (r : Refusal) (p : Beginning) →
        Begins text after_minus at (Faults r) → Begins text after_minus at p → p ≡ Faults r }
{}

/// A part has one first fault at most, and one list of tokens stands before it.
pub fn at_most_one_fault()
    ensures { (text : List ℕ) (part : Part) (ts us : List Token) (r s : Refusal) →
        IsBad text part ts r → IsBad text part us s → (us ≡ ts) × (s ≡ r) }
{}

/// Tokens that a part begins with are no more than it has up to its end or its first fault, so that
/// an answer of the limit excludes the others.
pub fn no_more_than_all()
    ensures tokens { (text : List ℕ) (part : Part) (front ts : List Token) →
        StartsWith text part front → Tokens text part ts → length front ≤ length ts }
    ensures fault { (text : List ℕ) (part : Part) (front ts : List Token) (r : Refusal) →
        StartsWith text part front → IsBad text part ts r → length front ≤ length ts }
{}

/// A text literal stands for one list of bytes.
pub fn at_most_one_literal()
    ensures { (text : List ℕ) (t : Token) (bs cs : List ℕ) →
        IsLiteral text t bs → IsLiteral text t cs → bs ≡ cs }
{}

/// Whether a part divides into tokens; where it does not, it has a fault.
pub fn has_tokens(text: &[u8], part: Span) -> bool
    requires order { part.start ≤ part.end }
    requires within { part.end ≤ length text.now }
    ensures { MatchBool result
        ((tokens : List Token) × Tokens text.now part tokens)
        ((tokens : List Token) × ((r : Refusal) × IsBad text.now part tokens r)) }
{
    let bytes = &text[..part.end as usize];
    let mut at = part.start as usize;
    let mut after_minus = false;
    'pieces: while at < bytes.len() {
        match piece_at(bytes, at, after_minus) {
            Piece::Skips(next) => at = next,
            Piece::Faults(_) => return false,
            Piece::Takes(kind, next) => {
                after_minus = is_minus(kind);
                at = next;
            }
        }
    }
    true
}
