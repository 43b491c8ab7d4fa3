//! The first violation of a rule.
ghost use Rattle.std.specs.Prelude.{◌≡◌, None};
ghost use Rattle.ml_scope.specs.Readings.{comes_before, earlier, noted, earliest};

use crate::found::Found;
use oxml_base::Refusal;

/// Whether one violation comes before another: by the start, then the number of the rule, then the
/// end.
fn comes_before(one: Refusal, other: Refusal) -> bool
    ensures { result ≡ comes_before one other }
{
    let rule = one.rule.number();
    let other_rule = other.rule.number();
    one.span.start < other.span.start
        || (one.span.start == other.span.start
            && (rule < other_rule || (rule == other_rule && one.span.end < other.span.end)))
}

/// The first of those so far and one more.
fn earlier(first: Option<Refusal>, more: Refusal) -> Refusal
    ensures { result ≡ earlier first more }
{
    match first {
        None => more,
        Some(one) => { if comes_before(more, one) { more } else { one } }
    }
}

/// The first violation so far, with one thing more that was found.
fn noted(first: Option<Refusal>, found: Found) -> Option<Refusal>
    ensures { result ≡ noted first found }
{
    match found {
        Found::Offends(refusal) => Some(earlier(first, refusal)),
        _ => first,
    }
}

/// The first violation in a journal; `None` where there is none.
pub fn first_offence(journal: &[Found]) -> Option<Refusal>
    ensures { result ≡ earliest None journal.now }
{
    let mut first = None;
    for found in journal {
        first = noted(first, *found);
    }
    first
}
