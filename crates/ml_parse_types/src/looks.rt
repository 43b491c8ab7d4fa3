//! What one or two tokens say of what begins and of what goes on.
ghost use Rattle.std.specs.Prelude.{◌≡◌, drop};
ghost use Rattle.ml_cursor.specs.Fronts.{front};
ghost use Rattle.ml_parse_types.specs.Looks.{type_start, is_name, is_arrow, is_of, behind_part, behind_var, behind_factor, behind_con, behind_field, field_semi, behind_decl, vars_start, body_start};

use ml_cursor::{Front, front_at, pass};
use ml_lexer::Token;

/// How the parts of a list of types stand.
#[derive(Clone, Copy)]
pub enum Row {
    /// One operand alone.
    Alone,
    /// Operands with `*` between them.
    Factors,
    /// Types with `,` between them, up to a `)`.
    Arguments,
}

/// What stands behind a part of a list.
#[derive(Clone, Copy)]
pub enum After {
    /// A separator, and one more part behind it.
    Goes,
    /// The end of the list, which takes so many tokens.
    Ends(usize),
    /// Neither.
    Fails,
}

/// What a token begins in a type.
#[derive(Clone, Copy)]
pub enum TypeStart {
    Variable,
    Named,
    Group,
    Other,
}

/// What a token begins in front of the name of a declaration.
#[derive(Clone, Copy)]
pub enum VarsStart {
    NoVars,
    OneVar,
    VarGroup,
}

/// What a token begins as the body of a declaration.
#[derive(Clone, Copy)]
pub enum BodyStart {
    Bar,
    Constructor,
    Brace,
    Other,
}

pub fn type_start(tokens: &[Token], at: usize) -> TypeStart
    ensures { result ≡ type_start (front (drop at tokens.now)) }
{
    match front_at(tokens, at) {
        Front::TypeVar => TypeStart::Variable,
        Front::Lower => TypeStart::Named,
        Front::OpenParen => TypeStart::Group,
        _ => TypeStart::Other,
    }
}

pub fn is_name(tokens: &[Token], at: usize) -> bool
    ensures { result ≡ is_name (front (drop at tokens.now)) }
{
    match front_at(tokens, at) {
        Front::Lower => true,
        _ => false,
    }
}

pub fn is_arrow(tokens: &[Token], at: usize) -> bool
    ensures { result ≡ is_arrow (front (drop at tokens.now)) }
{
    match front_at(tokens, at) {
        Front::Arrow => true,
        _ => false,
    }
}

pub fn is_of(tokens: &[Token], at: usize) -> bool
    ensures { result ≡ is_of (front (drop at tokens.now)) }
{
    match front_at(tokens, at) {
        Front::Of => true,
        _ => false,
    }
}

/// What stands behind a part of a row of types.
pub fn behind_part(row: Row, tokens: &[Token], at: usize) -> After
    ensures { result ≡ behind_part row (front (drop at tokens.now)) }
{
    match row {
        Row::Alone => After::Ends(0),
        Row::Factors => behind_factor(tokens, at),
        Row::Arguments => behind_var(tokens, at),
    }
}

/// What stands behind one of several in parentheses.
pub fn behind_var(tokens: &[Token], at: usize) -> After
    ensures { result ≡ behind_var (front (drop at tokens.now)) }
{
    match front_at(tokens, at) {
        Front::Comma => After::Goes,
        Front::CloseParen => After::Ends(1),
        _ => After::Fails,
    }
}

/// What stands behind an operand of `*`.
pub fn behind_factor(tokens: &[Token], at: usize) -> After
    ensures { result ≡ behind_factor (front (drop at tokens.now)) }
{
    match front_at(tokens, at) {
        Front::Star => After::Goes,
        _ => After::Ends(0),
    }
}

/// What stands behind a constructor.
pub fn behind_con(tokens: &[Token], at: usize) -> After
    ensures { result ≡ behind_con (front (drop at tokens.now)) }
{
    match front_at(tokens, at) {
        Front::Bar => After::Goes,
        _ => After::Ends(0),
    }
}

/// What stands one token behind a place.
fn front_behind(tokens: &[Token], at: usize) -> Front
    ensures { result ≡ front (drop 1 (drop at tokens.now)) }
{
    let mut behind = at;
    pass(tokens, &mut behind);
    front_at(tokens, behind)
}

/// What stands behind the `;` of a field: the closing brace, or one more field.
fn field_semi(tokens: &[Token], at: usize) -> After
    ensures { result ≡ field_semi (front (drop 1 (drop at tokens.now))) }
{
    match front_behind(tokens, at) {
        Front::CloseBrace => After::Ends(2),
        _ => After::Goes,
    }
}

/// What stands behind a field.
pub fn behind_field(tokens: &[Token], at: usize) -> After
    ensures { result ≡ behind_field (front (drop at tokens.now)) (front (drop 1 (drop at tokens.now))) }
{
    match front_at(tokens, at) {
        Front::Semi => field_semi(tokens, at),
        Front::CloseBrace => After::Ends(1),
        _ => After::Fails,
    }
}

/// What stands behind a declaration.
pub fn behind_decl(tokens: &[Token], at: usize) -> After
    ensures { result ≡ behind_decl (front (drop at tokens.now)) }
{
    match front_at(tokens, at) {
        Front::And => After::Goes,
        _ => After::Ends(0),
    }
}

pub fn vars_start(tokens: &[Token], at: usize) -> VarsStart
    ensures { result ≡ vars_start (front (drop at tokens.now)) }
{
    match front_at(tokens, at) {
        Front::TypeVar => VarsStart::OneVar,
        Front::OpenParen => VarsStart::VarGroup,
        _ => VarsStart::NoVars,
    }
}

pub fn body_start(tokens: &[Token], at: usize) -> BodyStart
    ensures { result ≡ body_start (front (drop at tokens.now)) }
{
    match front_at(tokens, at) {
        Front::Bar => BodyStart::Bar,
        Front::Upper => BodyStart::Constructor,
        Front::OpenBrace => BodyStart::Brace,
        _ => BodyStart::Other,
    }
}
