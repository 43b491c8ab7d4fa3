//! Whole programs, with the bytes that they write on each channel and how they end.

use super::evaluation::evaluate;
use super::programs::{COUNT, DEEP, EVAL, HANDED, INCREMENT, LOOP, REVERSE, TWENTY};
use ml_meaning::{Ending, Event};
use std::alloc::{AllocError, Global};
use std::process::Abort;
use std::test::Fail;

/// A source, the fuel, the bytes on channel 1, those on channel 2, and the end.
type Case = (&'static str, u64, &'static str, &'static str, Ending);

const DONE: Ending = Ending::Exit(0);

const FAILED: Ending = Ending::Exit(2);

/// Programs that print. The application of an operation is no call, so most of them need no fuel.
const PRINTS: [Case; 5] = [
    ("", 0, "", "", DONE),
    ("let () = print_string \"hi\\n\"", 0, "hi\n", "", DONE),
    // Right to left: the second operand writes first.
    (
        "let f s = print_string s; 1 let () = print_int (f \"a\" + f \"b\")",
        1,
        "ba2",
        "",
        DONE,
    ),
    (
        "let () = print_string (\"ab\" ^ string_of_int (-5)); print_int (String.length \"x\\065y\")",
        0,
        "ab-53",
        "",
        DONE,
    ),
    (
        "let () = if \"a\" < \"ab\" then print_char \"xyz\".[1] else exit 300",
        0,
        "y",
        "",
        DONE,
    ),
];

/// Numbers have 63 bits: sums wrap, `/` rounds toward zero and `mod` has the sign of the first
/// operand; shifts by 63 and more leave nothing, or the sign.
const NUMBERS: [Case; 5] = [
    (
        "let () = print_int (4611686018427387903 + 1)",
        0,
        "-4611686018427387904",
        "",
        DONE,
    ),
    (
        "let () = print_int (-4611686018427387904)",
        0,
        "-4611686018427387904",
        "",
        DONE,
    ),
    (
        "let () = print_int (-7 / 2); print_char ' '; print_int (-7 mod 2)",
        0,
        "-3 -1",
        "",
        DONE,
    ),
    (
        "let () = print_int (1 lsl 62); print_char ' '; print_int (1 lsl 63); print_char ' '; \
         print_int (-1 lsr 1); print_char ' '; print_int (-1 asr 70)",
        0,
        "-4611686018427387904 0 4611686018427387903 -1",
        "",
        DONE,
    ),
    (
        "let f x = let a = x + 1 in let b = a + x in let c = b + a in c + b + a + x \
         let () = print_int (f 1)",
        1,
        "11",
        "",
        DONE,
    ),
];

/// A failure writes its line on channel 2 and ends with 2; `exit` ends with its number modulo 256.
const ENDS: [Case; 4] = [
    (
        "let () = print_int (1 / 0)",
        0,
        "",
        "Fatal error: exception Division_by_zero\n",
        FAILED,
    ),
    (
        "let () = match 3 with 1 -> ()",
        0,
        "",
        "Fatal error: exception Match_failure\n",
        FAILED,
    ),
    (
        "let () = print_char \"a\".[1]",
        0,
        "",
        "Fatal error: exception Invalid_argument\n",
        FAILED,
    ),
    (
        "let () = if \"a\" > \"ab\" then print_char \"xyz\".[1] else exit 300",
        0,
        "",
        "",
        Ending::Exit(44),
    ),
];

/// The fuel bounds how many calls stand in one another or follow one another in tail position: with
/// one less there is no end, and the bytes up to the call that was due are there.
const FUEL: [Case; 14] = [
    (INCREMENT, 1, "42", "", DONE),
    (INCREMENT, 0, "", "", Ending::More),
    (REVERSE, 1_001, "1", "", DONE),
    (REVERSE, 1_000, "", "", Ending::More),
    (EVAL, 3, "42\n", "", DONE),
    (EVAL, 2, "", "", Ending::More),
    (EVAL, 999_999_999_999, "42\n", "", DONE),
    (HANDED, 1, "2", "", DONE),
    (HANDED, 0, "", "", Ending::More),
    (TWENTY, 21, "20", "", DONE),
    (TWENTY, 20, "", "", Ending::More),
    ("let f x = x + 1 let () = print_int (f 1)", 1, "2", "", DONE),
    (
        "let f x = x + 1 let () = print_int (f 1)",
        0,
        "",
        "",
        Ending::More,
    ),
    (LOOP, 10, "", "", Ending::More),
];

/// The same of 100,001 calls.
const MUCH_FUEL: [Case; 6] = [
    (LOOP, 100_001, "", "", DONE),
    (LOOP, 100_000, "", "", Ending::More),
    (COUNT, 100_001, "100000", "", DONE),
    (COUNT, 100_000, "", "", Ending::More),
    (DEEP, 100_001, "go\n100000", "", DONE),
    (DEEP, 100_000, "go\n", "", Ending::More),
];

/// The bytes that a trace writes on a channel.
fn bytes(alloc: Global, events: &[Event], on: u8) -> Result<Vec<u8>, AllocError> {
    let mut list = Vec::new(alloc);
    for event in events {
        match event {
            Event::Put { channel, byte } => {
                if *channel == on {
                    list.push(*byte)?;
                }
            }
            _ => {}
        }
    }
    Ok(list)
}

/// Whether each program of a table writes its bytes and ends as it should.
fn check(rt: &impl Abort, alloc: Global, table: &[Case]) -> Result<(), Fail> {
    for (source, fuel, out, err, ending) in table {
        let trace = evaluate(alloc, source, *fuel)?;
        let events = trace.events.as_slice();
        let (first, second) = (bytes(alloc, events, 1)?, bytes(alloc, events, 2)?);
        assert_eq!(rt; first.as_slice(), out.as_bytes(), "channel 1 at {source:?}");
        assert_eq!(rt;
            second.as_slice(),
            err.as_bytes(),
            "channel 2 at {source:?}"
        );
        assert_eq!(rt; trace.ending, *ending, "the end at {source:?}");
    }
    Ok(())
}

#[test]
fn bytes_and_ends(rt: HostRuntime) -> Result<(), Fail> {
    check(&rt, rt.alloc(), &PRINTS)?;
    check(&rt, rt.alloc(), &NUMBERS)?;
    check(&rt, rt.alloc(), &ENDS)?;
    check(&rt, rt.alloc(), &FUEL)
}

#[test]
fn long_runs(rt: HostRuntime) -> Result<(), Fail> {
    check(&rt, rt.alloc(), &MUCH_FUEL)
}
