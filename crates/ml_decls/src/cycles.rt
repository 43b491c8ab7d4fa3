//! Abbreviations that name themselves.
ghost use Rattle.std.specs.Prelude.{◌≡◌, ◌++◌, map, slice_index_or, false, IfOk, OnOk};
ghost use Rattle.ml_mentions.specs.Lists.{all};
ghost use Rattle.ml_decls.specs.Verdicts.{written_number, target, targets, marked_from, ReportsCycles};

use crate::offences::offence_where;
use crate::references::target;
use graph_cycles::on_cycles;
use ml_mentions::{Mention, Outline};
use ml_tree::{Scoped, TyRef};
use oxml_base::{Items, NoMemory, Refusal, Rule};
use std::alloc::Global;

/// The number of the first written declaration; those below it are predefined.
const FIRST_WRITTEN: u32 = 7;

/// Adds the declaration that is named, where it is a written one, counted from the first of those.
fn push_written(target: Option<TyRef>, list: &mut Items<u32>) -> Result<(), NoMemory>
    ensures { OnOk result (list.new ≡ list.old ++ written_number target) }
{
    match target {
        Some(TyRef::Decl(number)) => {
            if FIRST_WRITTEN <= number {
                Ok(list.push(number - FIRST_WRITTEN)?)
            } else {
                Ok(())
            }
        }
        Some(TyRef::Var(_)) => Ok(()),
        None => Ok(()),
    }
}

fn push_target(s: &Scoped, mention: Mention, list: &mut Items<u32>) -> Result<(), NoMemory>
    ensures { OnOk result (list.new ≡ list.old ++ target s.now.types mention) }
{
    match mention {
        Mention::Named {
            id,
            whole: _,
            arguments: _,
        } => push_written(target(s, id), list),
        Mention::Variable { id: _, place: _ } => Ok(()),
    }
}

fn named(alloc: Global, s: &Scoped, mentions: &[Mention]) -> Result<Items<u32>, NoMemory>
    ensures { IfOk result (λ list. list ≡ all (map (target s.now.types) mentions.now)) }
{
    let mut list = Items::new(alloc);
    for one in mentions {
        push_target(s, *one, &mut list)?;
    }
    Ok(list)
}

/// The written declarations that the body of an abbreviation names. Others have none here.
fn targets(alloc: Global, s: &Scoped, outline: &Outline) -> Result<Items<u32>, NoMemory>
    ensures { IfOk result (λ list. list ≡ targets s.now.types outline.now) }
{
    if outline.is_abbreviation {
        named(alloc, s, outline.mentions.as_slice())
    } else {
        Ok(Items::new(alloc))
    }
}

fn graph(alloc: Global, s: &Scoped, outlines: &[Outline]) -> Result<Items<Items<u32>>, NoMemory>
    ensures { IfOk result (λ graph. graph ≡ map (targets s.now.types) outlines.now) }
{
    let mut graph = Items::new(alloc);
    for one in outlines {
        graph.push(targets(alloc, s, one)?)?;
    }
    Ok(graph)
}

fn is_marked(marks: &[bool], place: usize) -> bool
    ensures { result ≡ slice_index_or marks.now place false }
{
    if place < marks.len() {
        marks[place]
    } else {
        false
    }
}

/// Adds a violation for each declaration that is marked.
fn report_marked(
    marks: &[bool],
    outlines: &[Outline],
    offences: &mut Items<Refusal>,
) -> Result<(), NoMemory>
    ensures { OnOk result (offences.new ≡ offences.old ++ marked_from marks.now 0 outlines.now) }
{
    let mut place = 0;
    for one in outlines {
        let wrong = is_marked(marks, place);
        offence_where(wrong, Rule::CyclicAbbreviation, one.name, offences)?;
        place += 1;
    }
    Ok(())
}

/// Adds a violation for each abbreviation whose body reaches its name through bodies of
/// abbreviations.
pub fn report_cycles(
    alloc: Global,
    s: &Scoped,
    outlines: &[Outline],
    offences: &mut Items<Refusal>,
) -> Result<(), NoMemory>
    ensures { OnOk result (ReportsCycles s.now.types outlines.now offences.old offences.new) }
{
    let graph = graph(alloc, s, outlines)?;
    let marks = on_cycles(alloc, graph.as_slice())?;
    report_marked(marks.as_slice(), outlines, offences)?;
    Ok(())
}
