ghost use Rattle.std.specs.Prelude.{◌<◌, ◌^◌, length, IfSome, IfOk};
ghost use Rattle.mode_lattice.specs.Clauses.{IsBelow, IsClosed};

use crate::{ModeErr, solve};
use mode_lattice::{Bit, Clause, ClauseList, Form, Table};
use oxml_base::{Items, Rule, Span};
use std::alloc::{AllocError, Global};
use std::test::Fail;

fn bit(bits: u32, digit: u8) -> Option<Bit>
    ensures { IfSome result (λ b. b.0 < bits) }
{
    let number = u32::from(digit.saturating_sub(b'0'));
    if number < bits {
        Some(Bit(number))
    } else {
        None
    }
}

/// `+0` forces bit 0, `-0` forbids it, and `0>1` implies bit 1 from bit 0.
fn form(bits: u32, word: &[u8]) -> Option<Form>
    ensures { IfSome result (λ f. IsBelow bits f) }
{
    match word {
        [b'+', digit] => Some(Form::Force(bit(bits, *digit)?)),
        [b'-', digit] => Some(Form::Forbid(bit(bits, *digit)?)),
        [from, b'>', to] => Some(Form::Imply(bit(bits, *from)?, bit(bits, *to)?)),
        _ => None,
    }
}

/// The clauses of a text of words. Each has its number as the start of its span.
fn clauses(alloc: Global, bits: u32, text: &str) -> Result<ClauseList, Fail>
    ensures closed { IfOk result IsClosed }
    ensures short { IfOk result (λ c. length c.list < 2 ^ 32) }
{
    let mut list = Items::new(alloc);
    for word in text.split_whitespace() {
        let start = u32::from(u16::try_from(list.len())?);
        let form = form(bits, word.as_bytes()).ok_or("a word that is no clause")?;
        let span = Span {
            start,
            end: start + 1,
        };
        list.push(Clause {
            rule: Rule::UsedTwice,
            span,
            form,
        })?;
    }
    Ok(ClauseList { bits, list })
}

fn digits(alloc: Global, table: &Table) -> Result<String, AllocError> {
    let mut text = String::new(alloc);
    for bit in table.bits.as_slice() {
        text.push(if *bit { '1' } else { '0' })?;
    }
    Ok(text)
}

/// The least and the greatest table, or the number of the clause at which the list is refused, the
/// start of the refusal's span, and the path.
fn answer(alloc: Global, c: &ClauseList) -> Result<String, Fail>
    requires closed { IsClosed c.now }
    requires short { length c.now.list < 2 ^ 32 }
{
    match solve(alloc, c) {
        Ok(solved) => {
            let least = digits(alloc, &solved.least)?;
            let greatest = digits(alloc, &solved.greatest)?;
            Ok(format!(in alloc; "{least} {greatest}")?)
        }
        Err(ModeErr::Refused { k, refusal, path }) => {
            let mut text = format!(in alloc; "{k} at {}:", refusal.span.start)?;
            for number in path.as_slice() {
                write!(text, " {number}")?;
            }
            Ok(text)
        }
        Err(error) => Err(error)?,
    }
}

#[test]
fn small_lists(rt: HostRuntime) -> Result<(), Fail> {
    let cases = [
        (1, "", "0 1"),
        (3, "", "000 111"),
        (1, "+0", "1 1"),
        (1, "-0", "0 0"),
        (2, "+1", "01 11"),
        (2, "-1", "00 10"),
        (2, "0>1", "00 11"),
        (2, "+0 0>1", "11 11"),
        (2, "0>1 +0", "11 11"),
        (2, "0>1 +1", "01 11"),
        (2, "0>1 -0", "00 01"),
        (2, "0>1 -1", "00 00"),
        (2, "0>1 1>0", "00 11"),
        (2, "0>1 1>0 +1", "11 11"),
        (2, "0>1 1>0 -0", "00 00"),
        (1, "0>0 +0", "1 1"),
        (1, "0>0 -0", "0 0"),
        (3, "0>1 1>2 +0", "111 111"),
        (3, "0>1 1>2 -2", "000 000"),
        (3, "1>2 +0 0>1", "111 111"),
        (3, "-2 0>1 1>2", "000 000"),
        (3, "0>1 0>2 +0", "111 111"),
        (3, "0>2 1>2 +1", "011 111"),
        (3, "0>2 1>2 -2", "000 000"),
        (3, "0>1 +2", "001 111"),
        (3, "0>1 -2", "000 110"),
        (4, "0>1 2>3 +0 -3", "1100 1100"),
        (4, "0>1 1>2 2>1 +1 -3", "0110 1110"),
        (6, "5>4 4>3 +5 -0 1>0", "000111 001111"),
        // the path is the only one in each of these
        (2, "+0 0>1 -1", "2 at 2: 0 1 2"),
        (1, "+0 -0", "1 at 1: 0 1"),
        (1, "-0 +0", "1 at 1: 1 0"),
        (1, "0>0 +0 -0", "2 at 2: 1 2"),
        (2, "-1 0>1 +0", "2 at 2: 2 1 0"),
        (2, "0>1 +0 -1", "2 at 2: 1 0 2"),
        (2, "0>1 -1 +0", "2 at 2: 2 0 1"),
        (2, "-1 +0 0>1", "2 at 2: 1 2 0"),
        (2, "+0 -1 0>1", "2 at 2: 0 2 1"),
        (2, "+0 -0 +1 -1", "1 at 1: 0 1"),
        (2, "+0 +1 -1 -0", "2 at 2: 1 2"),
        (2, "+0 -1 -0 +1", "2 at 2: 0 2"),
        (3, "1>2 0>1 +0 -2", "3 at 3: 2 1 0 3"),
        (3, "-2 1>2 0>1 +0", "3 at 3: 3 2 1 0"),
        (3, "+0 0>1 -2 1>0 1>2 -0", "4 at 4: 0 1 4 2"),
        (4, "+0 0>1 1>2 -3 2>3", "4 at 4: 0 1 2 4 3"),
        (4, "0>3 1>3 2>3 -3 +2", "4 at 4: 4 2 3"),
        (5, "0>1 1>2 2>3 3>4 +0 -4", "5 at 5: 4 0 1 2 3 5"),
        (5, "3>4 2>3 1>2 0>1 -4 +0", "5 at 5: 5 3 2 1 0 4"),
        (6, "0>1 2>3 4>5 1>2 3>4 -5 +0 -0", "6 at 6: 6 0 3 1 4 2 5"),
    ];
    for (bits, text, want) in cases {
        let list = clauses(rt.alloc(), bits, text)?;
        let got = answer(rt.alloc(), &list)?;
        assert_eq!(rt; got.as_str(), want, "for {text}");
    }
    Ok(())
}
