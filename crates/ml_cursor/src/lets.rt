ghost use Rattle.std.specs.Prelude.{◌≡◌, IfOk, OnOk, reverse, drop};
ghost use Rattle.ml_cursor.specs.Lets.{role_of, behind_bracket, behind_let, taken, closed_by, closings, begins_closed_let, closed_lets};
ghost use Rattle.ml_cursor.specs.declared.lets.Role.TheVariants.{OpensLet};

use crate::front::{Front, of_kind};
use ml_lexer::Token;
use oxml_base::{Items, NoMemory};
use sqlite_items::at;
use std::alloc::Global;

/// What a token does to the `let`s and brackets that are open.
#[derive(Clone, Copy)]
enum Role {
    OpensLet,
    OpensBracket,
    ClosesLet,
    ClosesBracket,
    /// `type` and `;;`, behind which nothing is open.
    EndsAll,
    Passes,
}

/// What closes something that stands before it: an `in` or a closing bracket.
#[derive(Clone, Copy)]
enum Closing {
    OfLet,
    OfBracket,
}

#[tactic(auto, unfolding(crate::specs::Lets::role_of))]
fn role_of(front: Front) -> Role
    ensures { result ≡ role_of front }
{
    match front {
        Front::Let => Role::OpensLet,
        Front::In => Role::ClosesLet,
        Front::OpenParen | Front::OpenBracket | Front::OpenBrace | Front::Begin => {
            Role::OpensBracket
        }
        Front::CloseParen | Front::CloseBracket | Front::CloseBrace | Front::End => {
            Role::ClosesBracket
        }
        Front::TypeWord | Front::SemiSemi => Role::EndsAll,
        _ => Role::Passes,
    }
}

/// Takes closings off up to and with the last bracket; all where there is none.
#[tactic(auto, using(crate::proofs::Walk::last_first))]
fn pass_bracket(closings: &mut Vec<Closing>)
    ensures { reverse closings.new.items ≡ behind_bracket (reverse closings.old.items) }
{
    while let Some(closing) = closings.pop() {
        if let Closing::OfBracket = closing {
            return;
        }
    }
}

/// Takes the last closing off where it is an `in`, and says whether it was.
#[tactic(auto, using(crate::proofs::Walk::last_first))]
fn pass_let(closings: &mut Vec<Closing>) -> bool
    ensures left { reverse closings.new.items ≡ behind_let (reverse closings.old.items) }
    ensures closed { result ≡ closed_by OpensLet (reverse closings.old.items) }
{
    match closings.last() {
        Some(Closing::OfLet) => {
            closings.pop();
            true
        }
        _ => false,
    }
}

/// Goes back over a token of this role, and says whether it is a `let` that an `in` closes. The
/// closings have the first one last.
#[tactic(auto, using(crate::proofs::Walk::last_first))]
fn step_back(closings: &mut Vec<Closing>, role: Role) -> Result<bool, NoMemory>
    ensures left { OnOk result (reverse closings.new.items ≡ taken role (reverse closings.old.items)) }
    ensures closed { IfOk result (λ closed. closed ≡ closed_by role (reverse closings.old.items)) }
{
    match role {
        Role::OpensLet => Ok(pass_let(closings)),
        Role::OpensBracket => {
            pass_bracket(closings);
            Ok(false)
        }
        Role::ClosesLet => {
            closings.push(Closing::OfLet)?;
            Ok(false)
        }
        Role::ClosesBracket => {
            closings.push(Closing::OfBracket)?;
            Ok(false)
        }
        Role::EndsAll => {
            closings.clear();
            Ok(false)
        }
        Role::Passes => Ok(false),
    }
}

/// For each token whether it is a `let` that an `in` closes: one walk from the last token back, with
/// the `in`s and closing brackets that still close something on a stack.
pub fn closed_lets(alloc: Global, tokens: &[Token]) -> Result<Items<bool>, NoMemory>
    ensures { IfOk result (λ table. table ≡ closed_lets tokens.now) }
{
    let mut table = vec![in alloc; false; tokens.len()]?;
    let mut closings = Vec::new(alloc);
    let mut at = tokens.len();
    while at > 0 {
        at -= 1;
        table[at] = step_back(&mut closings, role_of(of_kind(tokens[at].kind)))?;
    }
    Ok(Items::from_vec(table))
}

/// Whether the tokens from a place on begin with a `let` that an `in` closes, by the table of
/// `closed_lets`; not behind their end.
#[tactic(auto, using(crate::proofs::Walk::read_some, crate::proofs::Walk::read_none))]
pub fn begins_closed_let(tokens: &[Token], lets: &[bool], place: usize) -> bool
    requires { lets.now ≡ closed_lets tokens.now }
    ensures { result ≡ begins_closed_let (drop place tokens.now) }
{
    match at(lets, place) {
        Some(closed) => *closed,
        None => false,
    }
}
