//! The tables of a program: its functions, its declarations, and the function that `@` applies.
ghost use Rattle.std.specs.Prelude.{◌≡◌, ◌++◌, IfOk, OnOk, slice_get};
ghost use Rattle.std.specs.List.{flat_map};
ghost use Rattle.ml_meaning.specs.Programs as m;
ghost use Rattle.ml_run.specs.Whole.{IsProgram, decls_of};

use bumpalo::Bump;
use ml_functions::{Functions, functions};
use ml_steps::Written;
use ml_tree::{Decl, Item, ItemKind, Program, Scoped};
use ml_values::Tools;
use oxml_base::NoMemory;
use std::alloc::Global;

/// What stays as it is while a program is evaluated.
#[derive(Clone, Copy)]
pub struct Tables<'a> {
    pub tools: Tools<'a>,
    pub functions: Functions<'a>,
    /// The written declarations, in the order of the source.
    pub decls: &'a [Written<'a>],
    /// The binder of the function that `@` applies.
    pub append: u32,
}

/// The declarations of an item.
fn declared<'a>(kind: &'a ItemKind) -> &'a [Decl]
    ensures { result.now ≡ m.declarations_of kind.entry.now }
{
    match kind {
        ItemKind::Types(decls) => decls.as_slice(),
        ItemKind::Let { .. } => &[],
    }
}

/// The declarations of one item after those of the items before.
fn push_decls<'a>(list: &mut Vec<Written<'a>>, decls: &'a [Decl]) -> Result<(), NoMemory>
    ensures { OnOk result (decls_of list.new.items ≡ decls_of list.old.items ++ decls.entry.now) }
{
    for decl in decls {
        list.push(Written { decl })?;
    }
    Ok(())
}

/// The written declarations, in the order of the source.
fn declarations<'a>(alloc: Global, items: &'a [Item]) -> Result<Vec<Written<'a>>, NoMemory>
    ensures { IfOk result (λ list. decls_of list.items ≡ flat_map (λ i. m.declarations_of i.kind) items.entry.now) }
{
    let mut list = Vec::new(alloc);
    for item in items {
        push_decls(&mut list, declared(&item.kind))?;
    }
    Ok(list)
}

/// The place of the last item of the prelude, the function that `@` applies.
const APPEND: usize = 6;

/// The binder of the function that `@` applies.
fn append_binder(program: &Program) -> u32
    ensures { result ≡ m.first_binder (slice_get program.now.items 6) }
{
    match program.items.get(APPEND) {
        Some(item) => first_binder(&item.kind),
        None => 0,
    }
}

fn first_binder(kind: &ItemKind) -> u32
    ensures { result ≡ m.first_bound kind.now }
{
    match kind {
        ItemKind::Types(_) => 0,
        ItemKind::Let {
            recursive: _,
            binds,
        } => match binds.get(0) {
            Some(bind) => bind.pat.id,
            None => 0,
        },
    }
}

/// The tables of a program, in the arena.
pub fn tabulated<'a>(alloc: Global, bump: &'a Bump, s: &'a Scoped) -> Result<Tables<'a>, NoMemory>
    ensures { IfOk result (IsProgram s.entry.now) }
{
    let functions = functions(alloc, bump, s)?;
    let decls = declarations(alloc, s.program().items.as_slice())?;
    let decls: &'a [Written<'a>] = bump.try_alloc_slice_copy(decls.as_slice())?;
    Ok(Tables {
        tools: Tools {
            alloc,
            bump,
            scoped: s,
        },
        functions,
        decls,
        append: append_binder(s.program()),
    })
}
