ghost use Rattle.std.specs.Prelude.{◌≡◌, drop, IsTrue};
ghost use Rattle.ml_cursor.specs.Fronts.{front};
ghost use Rattle.ml_parse_patterns.specs.Looks.{negated, minus_by, paren_by, bracket_by, lead, is_pattern, applies, after_component, after_semi, after_element, after, after_last_semi, after_underscore, after_field_semi, after_field, parens_by, param_lead, is_param};

use ml_cursor::{Front, char_at, front_at, int_at, span_at};
use ml_lexer::Token;
use ml_tree::ConName;
use oxml_base::Span;

/// A pattern that its first one or two tokens tell whole.
#[derive(Clone, Copy)]
pub enum Leaf {
    Any,
    /// A name without words, by its span.
    Bound(Span),
    Int(i64),
    Char(u8),
    Con(ConName),
}

/// What a simple pattern begins with.
#[derive(Clone, Copy)]
pub enum Lead {
    /// No pattern begins here.
    Nothing,
    /// A leaf, and the number of its tokens.
    Whole(Leaf, usize),
    /// A name, or words before one.
    Name,
    /// A text literal.
    Quoted,
    /// `(` of a pattern in parentheses.
    Paren,
    /// `[` of a list that is not empty.
    Bracket,
    /// `{`
    Brace,
}

/// The levels of patterns, tightest first.
#[derive(Clone, Copy)]
pub enum Level {
    /// What may stand behind a constructor.
    Simple,
    /// A constructor with its argument, or a simple pattern.
    Operand,
    /// Operands joined by `::`.
    Cons,
    /// Components joined by `,`.
    Tuple,
    /// Alternatives joined by `|`.
    Or,
    /// All of a pattern, with the names that `as` gives it.
    Pattern,
}

/// The lists of patterns.
#[derive(Clone, Copy)]
pub enum Listing {
    /// The components of a tuple, with `,` between them.
    Components,
    /// The elements of a list up to its `]`, with `;` between them.
    Elements,
}

/// How a list goes on behind an element.
#[derive(Clone, Copy)]
pub enum After {
    /// With an element behind so many tokens.
    Goes(usize),
    /// It ends behind so many tokens.
    Stops(usize),
    Fails,
}

/// How a record pattern goes on behind a field.
#[derive(Clone, Copy)]
pub enum AfterField {
    /// With a field behind one token.
    Next,
    /// It ends behind so many tokens, and the flag says whether `_` is its last part.
    Ends(bool, usize),
    Broken,
}

/// What a parameter begins with.
#[derive(Clone, Copy)]
pub enum ParamLead {
    /// No parameter begins here.
    Absent,
    /// A leaf, and the number of its tokens.
    Short(Leaf, usize),
    /// `(` of a parameter in parentheses.
    Parens,
}

/// What stands so many tokens behind a place.
#[tactic(auto, using(crate::proofs::Places::drop_capped))]
fn front_behind(tokens: &[Token], at: usize, by: usize) -> Front
    ensures { result ≡ front (drop by (drop at tokens.now)) }
{
    front_at(tokens, at.saturating_add(by))
}

/// Goes past so many tokens.
#[tactic(auto, using(crate::proofs::Places::drop_capped))]
pub fn pass_all(tokens: &[Token], at: &mut usize, by: usize)
    ensures { drop at.new tokens.now ≡ drop by (drop at.old tokens.now) }
{
    *at = at.saturating_add(by);
}

/// The least number of 63 bits.
const LEAST: i64 = -(1 << 62);

/// The negation of a number of 63 bits; the least is its own.
fn negated(value: i64) -> i64
    ensures { result ≡ negated value }
{
    if value > LEAST { -value } else { value }
}

fn behind_minus(tokens: &[Token], at: usize) -> Lead
    ensures { result ≡ minus_by (front (drop 1 (drop at tokens.now))) (drop at tokens.now) }
{
    match front_behind(tokens, at, 1) {
        Front::Int => Lead::Whole(Leaf::Int(negated(int_at(tokens, at.saturating_add(1)))), 2),
        _ => Lead::Nothing,
    }
}

fn behind_paren(front: Front) -> Lead
    ensures { result ≡ paren_by front }
{
    match front {
        Front::CloseParen => Lead::Whole(Leaf::Con(ConName::Unit), 2),
        _ => Lead::Paren,
    }
}

fn behind_bracket(front: Front) -> Lead
    ensures { result ≡ bracket_by front }
{
    match front {
        Front::CloseBracket => Lead::Whole(Leaf::Con(ConName::Nil), 2),
        _ => Lead::Bracket,
    }
}

/// What the simple pattern is that begins at a place.
#[tactic(auto, unfolding(crate::specs::Looks::lead))]
pub fn lead_at(tokens: &[Token], at: usize) -> Lead
    ensures { result ≡ lead (drop at tokens.now) }
{
    match front_at(tokens, at) {
        Front::Underscore => Lead::Whole(Leaf::Any, 1),
        Front::Int => Lead::Whole(Leaf::Int(int_at(tokens, at)), 1),
        Front::Minus => behind_minus(tokens, at),
        Front::Char => Lead::Whole(Leaf::Char(char_at(tokens, at)), 1),
        Front::True => Lead::Whole(Leaf::Con(ConName::True), 1),
        Front::False => Lead::Whole(Leaf::Con(ConName::False), 1),
        Front::Upper => Lead::Whole(Leaf::Con(ConName::Named(span_at(tokens, at))), 1),
        Front::Text => Lead::Quoted,
        Front::Lower
        | Front::Local
        | Front::Global
        | Front::Unique
        | Front::Shared
        | Front::Once
        | Front::Many => Lead::Name,
        Front::OpenParen => behind_paren(front_behind(tokens, at, 1)),
        Front::OpenBracket => behind_bracket(front_behind(tokens, at, 1)),
        Front::OpenBrace => Lead::Brace,
        _ => Lead::Nothing,
    }
}

fn is_pattern(lead: Lead) -> bool
    ensures { result ≡ is_pattern lead }
{
    !matches!(lead, Lead::Nothing)
}

/// Whether a constructor stands at a place, and its argument behind it.
#[tactic(auto, using(crate::proofs::Places::drop_capped), unfolding(crate::specs::Looks::applies))]
pub fn applies_at(tokens: &[Token], at: usize) -> bool
    ensures { result ≡ applies (drop at tokens.now) }
{
    match front_at(tokens, at) {
        Front::Upper => is_pattern(lead_at(tokens, at.saturating_add(1))),
        _ => false,
    }
}

fn after_component(front: Front) -> After
    ensures { result ≡ after_component front }
{
    match front {
        Front::Comma => After::Goes(1),
        _ => After::Stops(0),
    }
}

fn after_semi(front: Front) -> After
    ensures { result ≡ after_semi front }
{
    match front {
        Front::CloseBracket => After::Stops(2),
        _ => After::Goes(1),
    }
}

fn after_element(tokens: &[Token], at: usize) -> After
    ensures { result ≡ after_element (front (drop at tokens.now)) (drop at tokens.now) }
{
    match front_at(tokens, at) {
        Front::CloseBracket => After::Stops(1),
        Front::Semi => after_semi(front_behind(tokens, at, 1)),
        _ => After::Fails,
    }
}

/// How a list goes on at a place behind one of its patterns.
#[tactic(auto, unfolding(crate::specs::Looks::after))]
pub fn after_at(listing: Listing, tokens: &[Token], at: usize) -> After
    ensures { result ≡ after listing (drop at tokens.now) }
{
    match listing {
        Listing::Components => after_component(front_at(tokens, at)),
        Listing::Elements => after_element(tokens, at),
    }
}

fn after_last_semi(front: Front) -> AfterField
    ensures { result ≡ after_last_semi front }
{
    match front {
        Front::CloseBrace => AfterField::Ends(true, 4),
        _ => AfterField::Broken,
    }
}

fn after_underscore(tokens: &[Token], at: usize) -> AfterField
    ensures { result ≡ after_underscore (front (drop 2 (drop at tokens.now))) (drop at tokens.now) }
{
    match front_behind(tokens, at, 2) {
        Front::CloseBrace => AfterField::Ends(true, 3),
        Front::Semi => after_last_semi(front_behind(tokens, at, 3)),
        _ => AfterField::Broken,
    }
}

fn after_field_semi(tokens: &[Token], at: usize) -> AfterField
    ensures { result ≡ after_field_semi (front (drop 1 (drop at tokens.now))) (drop at tokens.now) }
{
    match front_behind(tokens, at, 1) {
        Front::CloseBrace => AfterField::Ends(false, 2),
        Front::Underscore => after_underscore(tokens, at),
        _ => AfterField::Next,
    }
}

/// How a record pattern goes on at a place behind one of its fields.
#[tactic(auto, unfolding(crate::specs::Looks::after_field))]
pub fn after_field_at(tokens: &[Token], at: usize) -> AfterField
    ensures { result ≡ after_field (drop at tokens.now) }
{
    match front_at(tokens, at) {
        Front::CloseBrace => AfterField::Ends(false, 1),
        Front::Semi => after_field_semi(tokens, at),
        _ => AfterField::Broken,
    }
}

fn behind_open(front: Front) -> ParamLead
    ensures { result ≡ parens_by front }
{
    match front {
        Front::CloseParen => ParamLead::Short(Leaf::Con(ConName::Unit), 2),
        _ => ParamLead::Parens,
    }
}

/// What the parameter is that begins at a place.
#[tactic(auto, unfolding(crate::specs::Looks::param_lead))]
pub fn param_lead_at(tokens: &[Token], at: usize) -> ParamLead
    ensures { result ≡ param_lead (drop at tokens.now) }
{
    match front_at(tokens, at) {
        Front::Lower => ParamLead::Short(Leaf::Bound(span_at(tokens, at)), 1),
        Front::Underscore => ParamLead::Short(Leaf::Any, 1),
        Front::OpenParen => behind_open(front_behind(tokens, at, 1)),
        _ => ParamLead::Absent,
    }
}

fn is_param(lead: ParamLead) -> bool
    ensures { result ≡ is_param lead }
{
    !matches!(lead, ParamLead::Absent)
}

/// Whether a parameter begins at a place.
pub fn begins_param(tokens: &[Token], at: usize) -> bool
    ensures { result ≡ is_param (param_lead (drop at tokens.now)) }
{
    is_param(param_lead_at(tokens, at))
}
