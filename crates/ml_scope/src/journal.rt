//! Adding to what a walk has found.
ghost use Rattle.std.specs.Prelude.{◌≡◌, ◌&&◌, OnOk};
ghost use Rattle.ml_scope.specs.Journal.{offence, offence_where};

use crate::found::Found;
use oxml_base::{Items, NoMemory, Refusal, Rule, Span};

/// A violation of a rule.
pub fn offence(rule: Rule, span: Span, journal: &mut Items<Found>) -> Result<(), NoMemory>
    ensures { OnOk result (journal.new ≡ offence rule span journal.old) }
{
    journal.push(Found::Offends(Refusal { rule, span }))?;
    Ok(())
}

/// Whether both hold.
pub fn both(one: bool, other: bool) -> bool
    ensures { result ≡ (one && other) }
{
    one && other
}

/// A violation of a rule, where it is one.
pub fn offence_where(
    wrong: bool,
    rule: Rule,
    span: Span,
    journal: &mut Items<Found>,
) -> Result<(), NoMemory>
    ensures { OnOk result (journal.new ≡ offence_where wrong rule span journal.old) }
{
    if wrong {
        offence(rule, span, journal)
    } else {
        Ok(())
    }
}
