//! Evaluates a program.
ghost use Rattle.std.specs.Prelude.{◌≡◌, ◌++◌, [], IfOk};
ghost use Rattle.ml_tree.specs.declared.scoped.Scoped.{Scoped as Program};
ghost use Rattle.ml_meaning.specs.declared.event.Event.{Event};
ghost use Rattle.ml_meaning.specs.Growth.{Begins};
ghost use Rattle.ml_meaning.specs.Patterns.{Env as Bindings};
ghost use Rattle.ml_meaning.specs.Programs as m;
ghost use Rattle.ml_meaning.specs.Programs.{answer, eval};
ghost use Rattle.ml_steps.specs.Worlds.{setting_of};
ghost use Rattle.ml_run.specs.Stack.{Began};
ghost use Rattle.ml_run.specs.Whole.{Advanced, Holds, IsProgram, Ran, items_from, program_setting};

use crate::items::{Matched, run_item, set_tops};
use crate::tables::{Tables, tabulated};
use bumpalo::Bump;
use ml_meaning::{Ending, Event};
use ml_steps::World;
use ml_tree::{ItemKind, Scoped};
use ml_values::Word;
use oxml_base::NoMemory;
use std::alloc::Global;

/// What an item is evaluated in.
fn world<'t, 'a>(tables: Tables<'a>, tops: &'t [Option<Word<'a>>]) -> World<'t, 'a>
    ensures { (s : Program) (env : Bindings) → IsProgram s tables.entry → Holds tops.entry.now env → setting_of result ≡ program_setting s env }
{
    World {
        tools: tables.tools,
        functions: tables.functions,
        decls: tables.decls,
        append: tables.append,
        tops,
    }
}

/// The top-level names before the first item: none has a value.
fn no_tops<'a>(alloc: Global, count: u32) -> Result<Vec<Option<Word<'a>>>, NoMemory>
    ensures { IfOk result (λ tops. Holds tops.items []) }
{
    let mut tops = Vec::new(alloc);
    tops.resize(count as usize, None)?;
    Ok(tops)
}

/// Evaluates an item, and the top-level names take the values that it binds. `None` where the
/// program goes on.
fn advance<'a>(
    tables: Tables<'a>,
    tops: &mut [Option<Word<'a>>],
    out: &mut Vec<Event>,
    kind: &'a ItemKind,
    fuel: u64,
) -> Result<Option<Ending>, NoMemory>
    ensures ended { (s : Program) (env : Bindings) → IsProgram s tables.entry → Holds tops.old env → IfOk result (Advanced (program_setting s env) fuel kind.entry.now env out.old.items out.new.items tops.new) }
    ensures out { (s : Program) (env : Bindings) → IsProgram s tables.entry → Holds tops.old env → Began out.old.items out.new.items (m.item_evaluated Event (program_setting s env) fuel kind.entry.now) }
{
    match run_item(world(tables, tops), out, kind, fuel)? {
        Matched::Names(names) => {
            set_tops(tables.tools.alloc, tops, names)?;
            Ok(None)
        }
        Matched::End(ending) => Ok(Some(ending)),
    }
}

/// Evaluates the items of a program in order.
fn run_items<'a>(tables: Tables<'a>, fuel: u64, out: &mut Vec<Event>) -> Result<Ending, NoMemory>
    ensures ended { (s : Program) → IsProgram s tables.entry → IfOk result (λ ending. Ran out.old.items out.new.items ending (answer (items_from s fuel s.program.items []))) }
    ensures out { (s : Program) → IsProgram s tables.entry → Begins out.new.items (out.old.items ++ (answer (items_from s fuel s.program.items [])).0) }
{
    let program = tables.tools.scoped.program();
    let mut tops = no_tops(tables.tools.alloc, program.nodes)?;
    for item in program.items.as_slice() {
        if let Some(ending) = advance(tables, tops.as_mut_slice(), out, &item.kind, fuel)? {
            return Ok(ending);
        }
    }
    Ok(Ending::Exit(0))
}

/// Evaluates a program, its values in the arena.
fn run_in<'a>(
    alloc: Global,
    bump: &'a Bump,
    s: &'a Scoped,
    fuel: u64,
    out: &mut Vec<Event>,
) -> Result<Ending, NoMemory>
    ensures ended { IfOk result (λ ending. Ran out.old.items out.new.items ending (eval fuel s.entry.now)) }
    ensures out { Begins out.new.items (out.old.items ++ (eval fuel s.entry.now).0) }
{
    let tables = tabulated(alloc, bump, s)?;
    run_items(tables, fuel, out)
}

/// Evaluates a program with so much fuel, appends the events of its trace and answers how it ends.
///
/// The body of a call has one unit of fuel less than the call, and `More` comes where a call is due
/// and none is left. After `NoMemory` the first events of the trace were appended. A program that is
/// not well typed may end so too.
pub fn run(alloc: Global, s: &Scoped, fuel: u64, out: &mut Vec<Event>) -> Result<Ending, NoMemory>
    ensures ended { IfOk result (λ ending. Ran out.old.items out.new.items ending (eval fuel s.now)) }
    ensures out { Begins out.new.items (out.old.items ++ (eval fuel s.now).0) }
{
    let bump = Bump::new(alloc);
    run_in(alloc, &bump, s, fuel, out)
}
