use crate::{
    Env, Failure, Given, Mode, Tools, Word, Words, and, bind, close, count, fail, leave, local,
    made, negated, operate, operator, word_at,
};
use bumpalo::Bump;
use ml_meaning::Ending;
use ml_tree::{BinOp, Op, Program, Scoped};
use oxml_base::{Items, NoMemory};
use std::alloc::Global;
use std::test::Fail;

fn no_program(alloc: Global) -> Scoped {
    let program = Program {
        items: Items::new(alloc),
        nodes: 0,
        types: 0,
    };
    Scoped::new(program, Items::new(alloc), Items::new(alloc))
}

/// A number, a character or a constant as it is, an exit as its status above 1000, and a text by -1.
fn shown(given: Given) -> i64 {
    match given {
        Given::Value(Word::Number(z)) => z,
        Given::Value(Word::Character(c)) => c as i64,
        Given::Value(Word::Constant(k)) => k as i64,
        Given::End(Ending::Exit(status)) => 1000 + status as i64,
        _ => -1,
    }
}

#[test]
fn operations(rt: HostRuntime) -> Result<(), Fail> {
    let bump = Bump::new(rt.alloc());
    let scoped = no_program(rt.alloc());
    let tools = Tools {
        alloc: rt.alloc(),
        bump: &bump,
        scoped: &scoped,
    };
    for (op, word, events, expected) in [
        (Op::PrintInt, Word::Number(-12), 3, 0),
        (Op::CharOfInt, Word::Number(65), 0, 65),
        (Op::CharOfInt, Word::Number(256), 40, 1002),
        (Op::StringOfInt, Word::Number(100), 1, -1),
        (Op::StringLength, Word::Bytes(b"abc"), 0, 3),
        (Op::Exit, Word::Number(-1), 0, 1255),
        (Op::Failwith, Word::Bytes(b"abc"), 31, 1002),
    ] {
        let mut told = Vec::new(rt.alloc());
        let args = and(&bump, word, Words::Empty)?;
        let given = operate(tools, &mut told, None, op, args)?;
        assert_eq!(rt; told.len(), events);
        assert_eq!(rt; shown(given), expected);
    }
    Ok(())
}

#[test]
fn operators(rt: HostRuntime) -> Result<(), Fail> {
    let bump = Bump::new(rt.alloc());
    let scoped = no_program(rt.alloc());
    let tools = Tools {
        alloc: rt.alloc(),
        bump: &bump,
        scoped: &scoped,
    };
    let greatest = 4611686018427387903;
    for (op, one, other, events, expected) in [
        (
            BinOp::Add,
            Word::Number(greatest),
            Word::Number(1),
            0,
            -greatest - 1,
        ),
        (BinOp::Div, Word::Number(7), Word::Number(0), 40, 1002),
        (BinOp::Lt, Word::Bytes(b"ab"), Word::Bytes(b"b"), 0, 1),
        (BinOp::Join, Word::Bytes(b"ab"), Word::Bytes(b"b"), 1, -1),
    ] {
        let mut told = Vec::new(rt.alloc());
        let given = operator(tools, &mut told, 7, op, one, other)?;
        assert_eq!(rt; told.len(), events);
        assert_eq!(rt; shown(given), expected);
    }
    let mut told = Vec::new(rt.alloc());
    let given = negated(&mut told, Word::Number(5))?;
    assert_eq!(rt; shown(given), -5);
    Ok(())
}

#[test]
fn lists_and_names(rt: HostRuntime) -> Result<(), Fail> {
    let bump = Bump::new(rt.alloc());
    let last = and(&bump, Word::Number(2), Words::Empty)?;
    let both = and(&bump, Word::Number(1), last)?;
    assert_eq!(rt; count(both)?, 2);
    let word = word_at(both, 1).ok_or(NoMemory)?;
    assert_eq!(rt; shown(Given::Value(word)), 2);
    let outer = bind(&bump, 3, Word::Number(30), Env::Nothing)?;
    let inner = bind(&bump, 3, Word::Number(31), outer)?;
    let word = local(inner, 3).ok_or(NoMemory)?;
    assert_eq!(rt; shown(Given::Value(word)), 31);
    assert!(rt; local(inner, 4).is_none());
    Ok(())
}

#[test]
fn events(rt: HostRuntime) -> Result<(), Fail> {
    let mut told = Vec::new(rt.alloc());
    made(&mut told, 7, 3)?;
    close(&mut told, Mode::Last(72))?;
    leave(&mut told, Mode::Last(72))?;
    assert_eq!(rt; told.len(), 3);
    let ending = fail(&mut told, Failure::NoMatch)?;
    assert_eq!(rt; shown(Given::End(ending)), 1002);
    assert_eq!(rt; told.len(), 40);
    Ok(())
}
