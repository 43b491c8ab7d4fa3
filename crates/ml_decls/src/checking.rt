//! Whether the declarations of a program are well formed, and what they declare.
ghost use Rattle.std.specs.Prelude.{◌≡◌, ◌++◌, IfOk, IfErr, OnOk};
ghost use Rattle.ml_decls.specs.Offences.{NoneOrFirst};
ghost use Rattle.ml_decls.specs.Verdicts.{references, IsAllOf};
ghost use Rattle.ml_decls.specs.Answers.{IsChecked, Explains};

use crate::build::declare;
use crate::cycles::report_cycles;
use crate::names::report_names;
use crate::offences::first_offence;
use crate::references::{report_mentions, report_outlines, variable_counts};
use ml_mentions::{Outline, annotations, outlines};
use ml_tree::{Item, Scoped};
use ml_types::{Decls, TyTable};
use oxml_base::{Items, NoMemory, Refusal};
use std::alloc::Global;

/// Why the declarations of a program were not made.
#[derive(Clone, Copy, Debug, PartialEq, Eq)]
pub enum DeclErr {
    /// The first violation of rules 30 to 33: that with the least start, then the least rule, then
    /// the least end.
    Refused(Refusal),
    NoMemory,
}

/// Adds the violations of the rules on names and variables of types.
fn report_references(
    alloc: Global,
    s: &Scoped,
    items: &[Item],
    outlines: &[Outline],
    offences: &mut Items<Refusal>,
) -> Result<(), NoMemory>
    ensures { OnOk result (offences.new ≡ offences.old ++ references s.now.types outlines.now items.now) }
{
    let counts = variable_counts(alloc, outlines)?;
    report_outlines(s, counts.as_slice(), outlines, offences)?;
    let annotations = annotations(alloc, items)?;
    report_mentions(s, counts.as_slice(), None, annotations.as_slice(), offences)?;
    Ok(())
}

/// All violations of rules 30 to 33.
fn violations(
    alloc: Global,
    text: &[u8],
    s: &Scoped,
    items: &[Item],
) -> Result<Items<Refusal>, NoMemory>
    ensures { IfOk result (λ list. IsAllOf text.now s.now.types items.now list) }
{
    let outlines = outlines(alloc, items)?;
    let mut offences = Items::new(alloc);
    report_references(alloc, s, items, outlines.as_slice(), &mut offences)?;
    report_names(alloc, text, outlines.as_slice(), &mut offences)?;
    report_cycles(alloc, s, outlines.as_slice(), &mut offences)?;
    Ok(offences)
}

/// The first violation of a rule; `None` where the declarations are well formed.
fn first_violation(
    alloc: Global,
    text: &[u8],
    s: &Scoped,
    items: &[Item],
) -> Result<Option<Refusal>, NoMemory>
    ensures { IfOk result (NoneOrFirst text.now s.now.types items.now) }
{
    let list = violations(alloc, text, s, items)?;
    Ok(first_offence(list.as_slice()))
}

/// The declarations of a program at their types, the predefined ones first, and the table in which
/// these types stand. Each arrow of the table has a slot of its own, counted from 0. Names of
/// abbreviations stay in these types, also in those that abbreviations stand for. The text is
/// that over which the spans of the program count. Each name and each variable of a type has a
/// reference, as `resolve` gives it; where one has none, the answer is `NoMemory`.
pub fn check_decls(alloc: Global, text: &[u8], s: &Scoped) -> Result<(Decls, TyTable), DeclErr>
    ensures ok { IfOk result (λ made. IsChecked text.now s.now made.0 made.1) }
    ensures err { IfErr result (Explains text.now s.now) }
{
    let items = s.program().items.as_slice();
    let Ok(first) = first_violation(alloc, text, s, items) else {
        return Err(DeclErr::NoMemory)
    };
    if let Some(refusal) = first {
        return Err(DeclErr::Refused(refusal));
    }
    match declare(alloc, s, items) {
        Ok(made) => Ok(made),
        Err(_) => Err(DeclErr::NoMemory),
    }
}
