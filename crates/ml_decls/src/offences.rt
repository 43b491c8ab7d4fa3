//! Violations of rules, and the first of them.
ghost use Rattle.std.specs.Prelude.{◌≡◌, ◌↔◌, ◌⊎◌, ◌++◌, [], IfSome, IfNone, IsTrue, OnOk};
ghost use Rattle.oxml_base.specs.declared.refusal.Refusal.{Refusal};
ghost use Rattle.ml_decls.specs.Lists.{IsIn};
ghost use Rattle.ml_decls.specs.Offences.{ComesBefore};
ghost use Rattle.ml_decls.specs.Verdicts.{where_wrong};

use oxml_base::{Items, NoMemory, Refusal, Rule, Span};

/// Adds a violation of a rule, where it is one.
pub fn offence_where(
    wrong: bool,
    rule: Rule,
    span: Span,
    offences: &mut Items<Refusal>,
) -> Result<(), NoMemory>
    ensures { OnOk result (offences.new ≡ offences.old ++ where_wrong wrong rule span) }
{
    if wrong {
        Ok(offences.push(Refusal { rule, span })?)
    } else {
        Ok(())
    }
}

/// Whether one violation comes before another: by the start, then the number of the rule, then the
/// end.
fn comes_before(one: Refusal, other: Refusal) -> bool
    ensures { IsTrue result ↔ ComesBefore one other }
{
    let rule = one.rule.number();
    let other_rule = other.rule.number();
    one.span.start < other.span.start
        || (one.span.start == other.span.start
            && (rule < other_rule || (rule == other_rule && one.span.end < other.span.end)))
}

/// The first of those so far and one more.
fn earlier(first: Option<Refusal>, more: Refusal) -> Refusal
    ensures is { IfNone first (result ≡ more) }
    ensures earlier { IfSome first (λ one. ((result ≡ more) × ComesBefore more one) ⊎ ((result ≡ one) × (ComesBefore more one → ⊥))) }
{
    match first {
        None => more,
        Some(one) => { if comes_before(more, one) { more } else { one } }
    }
}

/// The first of several violations; `None` where there is none.
pub fn first_offence(offences: &[Refusal]) -> Option<Refusal>
    ensures none { IfNone result (offences.now ≡ []) }
    ensures found { IfSome result (λ first. IsIn first offences.now) }
    ensures least { IfSome result (λ first. (other : Refusal) → IsIn other offences.now → ComesBefore other first → ⊥) }
{
    let mut first = None;
    for one in offences {
        first = Some(earlier(first, *one));
    }
    first
}
