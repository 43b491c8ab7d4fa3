//! What goes on with a list behind one of its parts.
ghost use Rattle.std.specs.Prelude.{◌≡◌, drop, if◌then◌else◌};
ghost use Rattle.ml_cursor.specs.Fronts.{front};
ghost use Rattle.ml_grammar.specs.Looks.{is_comma, joins_operands, begins_statement, behind_statements, goes_on, next, behind, begins_field, behind_semi};

use crate::begins::{begins_atom, begins_expression};
use crate::operators::operator_of;
use crate::source::Source;
use ml_cursor::{Front, accept, front_at, stands};
use ml_grammar::ListKind;
use ml_lexer::Token;

fn is_comma(front: Front) -> bool
    ensures { result ≡ is_comma front }
{
    match front {
        Front::Comma => true,
        _ => false,
    }
}

/// Whether an operand goes on with this.
fn joins_operands(front: Front) -> bool
    ensures { result ≡ joins_operands front }
{
    if is_comma(front) {
        return true;
    }
    match operator_of(front) {
        Some(_) => true,
        None => false,
    }
}

/// Goes past the `;` behind an expression, if it belongs to the sequence, and says whether another
/// expression follows. A `;` with no expression behind it is the trailing one, but before an operator
/// or a `,` it belongs to nothing: the form that it would end is open, and no left operand.
fn goes_on_statements(source: &Source, at: &mut usize) -> bool
    ensures goes { result ≡ begins_statement (drop at.old source.now.tokens.now) }
    ensures place { drop at.new source.now.tokens.now ≡ (if result then drop 1 (drop at.old source.now.tokens.now) else behind_statements (drop at.old source.now.tokens.now)) }
{
    let start = *at;
    if !accept(source.tokens, at, Front::Semi) {
        return false;
    }
    if begins_expression(source, *at) {
        return true;
    }
    if joins_operands(front_at(source.tokens, *at)) {
        *at = start;
        return false;
    }
    false
}

/// Goes past what stands between two parts of a list, and says whether another part follows. What
/// belongs to the list behind its last part is passed too.
#[tactic(auto, unfolding(ml_grammar::specs::Looks::goes_on, ml_grammar::specs::Looks::next, ml_grammar::specs::Looks::behind))]
pub fn goes_on(kind: ListKind, source: &Source, at: &mut usize) -> bool
    ensures goes { result ≡ goes_on kind (drop at.old source.now.tokens.now) }
    ensures place { drop at.new source.now.tokens.now ≡ (if result then next kind (drop at.old source.now.tokens.now) else behind kind (drop at.old source.now.tokens.now)) }
{
    match kind {
        ListKind::Statements => goes_on_statements(source, at),
        ListKind::Elements => goes_on_statements(source, at),
        ListKind::Parts => accept(source.tokens, at, Front::Comma),
        ListKind::Arguments => begins_atom(source.tokens, *at),
    }
}

/// Goes past the `;` behind a field, if there is one, and says whether a field follows.
pub fn field_follows(tokens: &[Token], at: &mut usize) -> bool
    ensures goes { result ≡ begins_field (drop at.old tokens.now) }
    ensures place { drop at.new tokens.now ≡ (if result then drop 1 (drop at.old tokens.now) else behind_semi (drop at.old tokens.now)) }
{
    if !accept(tokens, at, Front::Semi) {
        return false;
    }
    stands(tokens, *at, Front::Lower)
}
