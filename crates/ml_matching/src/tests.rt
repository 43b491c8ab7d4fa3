use crate::{fit_binds, fit_params, fits};
use bumpalo::Bump;
use ml_tree::{Bind, Expr, ExprKind, Param, Pat, PatKind, Program, Scoped, Words as ModeWords};
use ml_values::{Env, Tools, Word, Words, and, local};
use oxml_base::{Items, NoMemory, Span};
use std::alloc::Global;
use std::test::Fail;

const NOWHERE: Span = Span { start: 0, end: 0 };

const NO_WORDS: ModeWords = ModeWords {
    loc: None,
    uni: None,
    aff: None,
};

fn name(id: u32) -> Pat {
    Pat {
        id,
        span: NOWHERE,
        kind: PatKind::Name(NO_WORDS, NOWHERE),
    }
}

/// `x, y`, whose names are 1 and 2.
fn pair(alloc: Global) -> Result<Pat, NoMemory> {
    let mut parts = Items::new(alloc);
    parts.push(name(1))?;
    parts.push(name(2))?;
    Ok(Pat {
        id: 0,
        span: NOWHERE,
        kind: PatKind::Tuple(parts),
    })
}

fn params(alloc: Global) -> Result<Items<Param>, NoMemory> {
    let mut list = Items::new(alloc);
    for id in [1, 2] {
        list.push(Param {
            words: NO_WORDS,
            pat: name(id),
        })?;
    }
    Ok(list)
}

/// Two bindings, of the names 1 and 2.
fn binds(alloc: Global) -> Result<Items<Bind>, NoMemory> {
    let mut list = Items::new(alloc);
    for id in [1, 2] {
        list.push(Bind {
            pat: name(id),
            params: Items::new(alloc),
            result: None,
            body: Expr {
                id: 3,
                span: NOWHERE,
                kind: ExprKind::Int(0),
            },
        })?;
    }
    Ok(list)
}

/// Whether 1 stands for 7 and 2 for `a`.
fn has_both(found: Option<Env>) -> bool {
    let Some(env) = found else {
        return false;
    };
    matches!(local(env, 1), Some(Word::Number(7)))
        && matches!(local(env, 2), Some(Word::Character(b'a')))
}

fn by_pattern<'a>(tools: Tools<'a>, words: Words<'a>) -> Result<Option<Env<'a>>, NoMemory> {
    let pat = pair(tools.alloc)?;
    fits(tools, &pat, Word::Block(0, words), Env::Nothing)
}

fn by_params<'a>(tools: Tools<'a>, words: Words<'a>) -> Result<Option<Env<'a>>, NoMemory> {
    let list = params(tools.alloc)?;
    fit_params(tools, list.as_slice(), words, Env::Nothing)
}

fn by_binds<'a>(tools: Tools<'a>, words: Words<'a>) -> Result<Option<Env<'a>>, NoMemory> {
    let list = binds(tools.alloc)?;
    fit_binds(tools, list.as_slice(), words, Env::Nothing)
}

/// Whether two values give two names by each way.
fn two_fit<'a>(tools: Tools<'a>, words: Words<'a>) -> Result<bool, NoMemory> {
    let pattern = has_both(by_pattern(tools, words)?);
    let params = has_both(by_params(tools, words)?);
    let binds = has_both(by_binds(tools, words)?);
    Ok(pattern && params && binds)
}

/// Whether these values fit by no way.
fn none_fits<'a>(tools: Tools<'a>, words: Words<'a>) -> Result<bool, NoMemory> {
    let pattern = by_pattern(tools, words)?.is_none();
    let params = by_params(tools, words)?.is_none();
    let binds = by_binds(tools, words)?.is_none();
    Ok(pattern && params && binds)
}

fn tried<'a>(alloc: Global, bump: &'a Bump, scoped: &'a Scoped) -> Result<bool, NoMemory> {
    let tools: Tools<'a> = Tools {
        alloc,
        bump,
        scoped,
    };
    let one: Words<'a> = and(bump, Word::Character(b'a'), Words::Empty)?;
    let two: Words<'a> = and(bump, Word::Number(7), one)?;
    let fitting = two_fit(tools, two)?;
    let short = none_fits(tools, one)?;
    Ok(fitting && short)
}

#[test]
fn two_names(rt: HostRuntime) -> Result<(), Fail> {
    let alloc = rt.alloc();
    let program = Program {
        items: Items::new(alloc),
        nodes: 0,
        types: 0,
    };
    let s = Scoped::new(program, Items::new(alloc), Items::new(alloc));
    let bump = Bump::new(alloc);
    assert!(rt; tried(alloc, &bump, &s)?);
    Ok(())
}
