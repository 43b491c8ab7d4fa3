//! What the names and variables of types stand for: how many arguments names have, and whether
//! variables are listed.
ghost use Rattle.std.specs.Prelude.{◌≡◌, ◌++◌, map, slice_get, IfOk, OnOk};
ghost use Rattle.ml_mentions.specs.Lists.{all};
ghost use Rattle.ml_decls.specs.Lists.{find};
ghost use Rattle.ml_decls.specs.Verdicts.{outline_counts, differs, miscounts, is_unlisted, verdict, verdicts, outline_verdicts};

use crate::offences::offence_where;
use ml_mentions::{Mention, Outline};
use ml_tree::{Scoped, TyRef};
use oxml_base::{Items, NoMemory, Refusal, Rule};
use sqlite_items::at;
use std::alloc::Global;

/// What the type expression of this number stands for.
pub fn target(s: &Scoped, id: u32) -> Option<TyRef>
    ensures { result ≡ find s.now.types id }
{
    s.type_target(id)
}

/// How many variables each declaration has, at its number: int, char, string, bool, unit, list and
/// option, and then the written ones.
pub fn variable_counts(alloc: Global, outlines: &[Outline]) -> Result<Items<usize>, NoMemory>
    ensures { IfOk result (λ counts. counts ≡ outline_counts outlines.now) }
{
    let mut counts = Items::from_slice(alloc, &[0, 0, 0, 0, 0, 1, 1])?;
    for one in outlines {
        counts.push(one.variables)?;
    }
    Ok(counts)
}

/// Whether the declaration of this number has more or fewer variables.
fn differs(counts: &[usize], number: u32, given: usize) -> bool
    ensures { result ≡ differs (slice_get counts.now number) given }
{
    match at(counts, number as usize) {
        Some(count) => *count != given,
        None => false,
    }
}

/// Whether a name has more or fewer arguments than its declaration has variables.
fn is_miscounted(counts: &[usize], target: Option<TyRef>, given: usize) -> bool
    ensures { result ≡ miscounts counts.now target given }
{
    match target {
        Some(TyRef::Decl(number)) => differs(counts, number, given),
        Some(TyRef::Var(_)) => false,
        None => false,
    }
}

/// Whether a variable is not among the first so many, which its declaration lists. In an item, where
/// nothing is listed, every variable may stand.
fn is_behind_list(listed: Option<usize>, target: Option<TyRef>) -> bool
    ensures { result ≡ is_unlisted listed target }
{
    match listed {
        None => false,
        Some(count) => match target {
            Some(TyRef::Var(number)) => count <= number as usize,
            Some(TyRef::Decl(_)) => false,
            None => false,
        },
    }
}

/// Adds the violation of a name or a variable. `counts` has how many variables each declaration has,
/// at its number; `listed` is how many the declaration has in which the name stands, `None` in an
/// item that binds names.
fn report(
    s: &Scoped,
    counts: &[usize],
    listed: Option<usize>,
    mention: Mention,
    offences: &mut Items<Refusal>,
) -> Result<(), NoMemory>
    ensures { OnOk result (offences.new ≡ offences.old ++ verdict s.now.types counts.now listed mention) }
{
    match mention {
        Mention::Named {
            id,
            whole,
            arguments,
        } => {
            let wrong = is_miscounted(counts, target(s, id), arguments);
            offence_where(wrong, Rule::ArgumentCount, whole, offences)
        }
        Mention::Variable { id, place } => {
            let wrong = is_behind_list(listed, target(s, id));
            offence_where(wrong, Rule::UnboundVariable, place, offences)
        }
    }
}

/// The same of several names and variables.
pub fn report_mentions(
    s: &Scoped,
    counts: &[usize],
    listed: Option<usize>,
    mentions: &[Mention],
    offences: &mut Items<Refusal>,
) -> Result<(), NoMemory>
    ensures { OnOk result (offences.new ≡ offences.old ++ verdicts s.now.types counts.now listed mentions.now) }
{
    for one in mentions {
        report(s, counts, listed, *one, offences)?;
    }
    Ok(())
}

/// The same of the types of several declarations.
pub fn report_outlines(
    s: &Scoped,
    counts: &[usize],
    outlines: &[Outline],
    offences: &mut Items<Refusal>,
) -> Result<(), NoMemory>
    ensures { OnOk result (offences.new ≡ offences.old ++ all (map (outline_verdicts s.now.types counts.now) outlines.now)) }
{
    for one in outlines {
        report_mentions(
            s,
            counts,
            Some(one.variables),
            one.mentions.as_slice(),
            offences,
        )?;
    }
    Ok(())
}
