//! What the next tokens begin, and what goes on there.
ghost use Rattle.std.specs.Prelude.{◌≡◌, drop, length};
ghost use Rattle.ml_cursor.specs.Fronts.{front};
ghost use Rattle.ml_grammar.specs.Looks.{second, third, atom_by, atom_lead, begins_atom_by, begins_atom, suffix_by, suffix, locality, uniqueness, affinity, lead_by, lead, begins_open_by, begins_expression, begins_parameter, binds_function, is_lower};

use crate::source::Source;
use ml_cursor::{Front, begins_closed_let, front_at, pass};
use ml_grammar::{AtomLead, Lead, Leaf, Suffix};
use ml_lexer::Token;
use ml_tree::{Aff, Loc, Uni, Words};

/// What stands one token behind a place.
pub fn second_at(tokens: &[Token], at: usize) -> Front
    ensures { result ≡ second (drop at tokens.now) }
{
    let mut place = at;
    pass(tokens, &mut place);
    front_at(tokens, place)
}

/// What stands two tokens behind a place.
pub fn third_at(tokens: &[Token], at: usize) -> Front
    ensures { result ≡ third (drop at tokens.now) }
{
    let mut place = at;
    pass(tokens, &mut place);
    pass(tokens, &mut place);
    front_at(tokens, place)
}

/// An atom by its first three tokens.
fn atom_by(first: Front, second: Front, third: Front) -> AtomLead
    ensures { result ≡ atom_by first second third }
{
    match first {
        Front::Int => AtomLead::Leaf(Leaf::Int),
        Front::Char => AtomLead::Leaf(Leaf::Char),
        Front::Text => AtomLead::Text,
        Front::Lower => AtomLead::Leaf(Leaf::Name),
        Front::Upper => match second {
            Front::Dot => match third {
                Front::Lower => AtomLead::Leaf(Leaf::Path),
                _ => AtomLead::Leaf(Leaf::Upper),
            },
            _ => AtomLead::Leaf(Leaf::Upper),
        },
        Front::True => AtomLead::Leaf(Leaf::True),
        Front::False => AtomLead::Leaf(Leaf::False),
        Front::OpenParen => match second {
            Front::CloseParen => AtomLead::Leaf(Leaf::Unit),
            _ => AtomLead::Paren,
        },
        Front::Begin => AtomLead::Begin,
        Front::OpenBracket => match second {
            Front::CloseBracket => AtomLead::Leaf(Leaf::Nil),
            _ => AtomLead::List,
        },
        Front::OpenBrace => AtomLead::Record,
        _ => AtomLead::Nothing,
    }
}

/// What an atom at this place begins with.
#[tactic(auto, unfolding(ml_grammar::specs::Looks::atom_lead))]
pub fn atom_at(tokens: &[Token], at: usize) -> AtomLead
    ensures { result ≡ atom_lead (drop at tokens.now) }
{
    atom_by(
        front_at(tokens, at),
        second_at(tokens, at),
        third_at(tokens, at),
    )
}

/// Whether an atom begins with this.
fn begins_atom_by(front: Front) -> bool
    ensures { result ≡ begins_atom_by front }
{
    match front {
        Front::Int
        | Front::Char
        | Front::Text
        | Front::Lower
        | Front::Upper
        | Front::True
        | Front::False
        | Front::OpenParen
        | Front::Begin
        | Front::OpenBracket
        | Front::OpenBrace => true,
        _ => false,
    }
}

/// Whether an atom begins at this place.
#[tactic(auto, unfolding(ml_grammar::specs::Looks::begins_atom))]
pub fn begins_atom(tokens: &[Token], at: usize) -> bool
    ensures { result ≡ begins_atom (drop at tokens.now) }
{
    begins_atom_by(front_at(tokens, at))
}

fn suffix_by(first: Front, second: Front) -> Suffix
    ensures { result ≡ suffix_by first second }
{
    match first {
        Front::Dot => match second {
            Front::Lower => Suffix::Field,
            Front::OpenBracket => Suffix::Index,
            _ => Suffix::Nothing,
        },
        _ => Suffix::Nothing,
    }
}

/// What goes on with an atom that ends before this place.
#[tactic(auto, unfolding(ml_grammar::specs::Looks::suffix))]
pub fn suffix_at(tokens: &[Token], at: usize) -> Suffix
    ensures { result ≡ suffix (drop at tokens.now) }
{
    suffix_by(front_at(tokens, at), second_at(tokens, at))
}

/// A word that states a locality.
fn locality(loc: Loc) -> Lead
    ensures { result ≡ locality loc }
{
    Lead::Word(Words {
        loc: Some(loc),
        uni: None,
        aff: None,
    })
}

/// A word that states a uniqueness.
fn uniqueness(uni: Uni) -> Lead
    ensures { result ≡ uniqueness uni }
{
    Lead::Word(Words {
        loc: None,
        uni: Some(uni),
        aff: None,
    })
}

/// A word that states an affinity.
fn affinity(aff: Aff) -> Lead
    ensures { result ≡ affinity aff }
{
    Lead::Word(Words {
        loc: None,
        uni: None,
        aff: Some(aff),
    })
}

/// An operand by its first two tokens.
fn lead_by(first: Front, second: Front) -> Lead
    ensures { result ≡ lead_by first second }
{
    match first {
        Front::Let => match second {
            Front::Borrow => Lead::Borrow,
            _ => Lead::Let,
        },
        Front::Match => Lead::Match,
        Front::Function => Lead::Function,
        Front::Fun => Lead::Fun,
        Front::If => Lead::If,
        Front::Exclave => Lead::Exclave,
        Front::Minus => Lead::Minus,
        Front::Local => locality(Loc::Local),
        Front::Global => locality(Loc::Global),
        Front::Unique => uniqueness(Uni::Unique),
        Front::Shared => uniqueness(Uni::Shared),
        Front::Many => affinity(Aff::Many),
        Front::Once => affinity(Aff::Once),
        Front::Overwrite => Lead::Overwrite,
        Front::Upper => upper_lead(second),
        _ => Lead::Application,
    }
}

/// An upper name with an atom behind it takes that as its argument.
fn upper_lead(second: Front) -> Lead
    ensures { result ≡ lead_by Front.Upper second }
{
    if begins_atom_by(second) {
        return Lead::Constructor;
    }
    Lead::Application
}

/// What an operand at this place begins with.
#[tactic(auto, unfolding(ml_grammar::specs::Looks::lead))]
pub fn lead_at(tokens: &[Token], at: usize) -> Lead
    ensures { result ≡ lead (drop at tokens.now) }
{
    lead_by(front_at(tokens, at), second_at(tokens, at))
}

/// Whether an expression other than a `let` begins with this.
fn begins_open_by(front: Front) -> bool
    ensures { result ≡ begins_open_by front }
{
    match front {
        Front::Match
        | Front::Function
        | Front::Fun
        | Front::If
        | Front::Exclave
        | Front::Minus
        | Front::Local
        | Front::Global
        | Front::Unique
        | Front::Shared
        | Front::Many
        | Front::Once
        | Front::Overwrite => true,
        _ => begins_atom_by(front),
    }
}

/// Whether an expression begins at this place: a `let` does so only where an `in` closes it.
#[tactic(auto, unfolding(ml_grammar::specs::Looks::begins_expression))]
pub fn begins_expression(source: &Source, at: usize) -> bool
    ensures { result ≡ begins_expression (drop at source.now.tokens.now) }
{
    if begins_open_by(front_at(source.tokens, at)) {
        return true;
    }
    begins_closed_let(source.tokens, source.lets, at)
}

fn begins_parameter(front: Front) -> bool
    ensures { result ≡ begins_parameter front }
{
    match front {
        Front::Lower | Front::Underscore | Front::OpenParen => true,
        _ => false,
    }
}

fn is_lower(front: Front) -> bool
    ensures { result ≡ is_lower front }
{
    match front {
        Front::Lower => true,
        _ => false,
    }
}

/// Whether a name stands here with a parameter behind it.
#[tactic(auto, unfolding(ml_grammar::specs::Looks::binds_function))]
pub fn binds_function(tokens: &[Token], at: usize) -> bool
    ensures { result ≡ binds_function (drop at tokens.now) }
{
    is_lower(front_at(tokens, at)) && begins_parameter(second_at(tokens, at))
}
