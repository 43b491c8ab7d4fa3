use crate::command::oxml;
use crate::compile::{CompileErr, compile};
use elf_image::{ImageErr, load};
use oxml_base::{Limit, MemShelf, MemSink, Refusal, Rule, Shelf, Span};
use std::alloc::Global;
use std::process::Abort;
use std::test::Fail;
use x64_table::{Machine, Sizes, Stepped};

const HI: &[u8] = b"let () = print_string \"hi\\n\"\n";

const SMALL: Sizes = Sizes {
    area: 1,
    local: 1,
    stack: 1_024,
};

/// What an executable did: the bytes that it wrote on channel 1, how many it asked for in each write,
/// and its status.
#[derive(Drop)]
struct Ran {
    written: Vec<u8>,
    asked: Vec<u64>,
    status: u8,
}

/// Runs an executable under these answers; past their end each write takes all its bytes.
fn run(rt: &impl Abort, alloc: Global, file: &[u8], answers: &[i64]) -> Result<Ran, Fail> {
    let image = load(alloc, file).expect(rt, "an image");
    let mut machine = Machine::new(alloc, &image)?;
    let mut written = Vec::new(alloc);
    let mut asked = Vec::new(alloc);
    for _ in 0..10_000u32 {
        match machine.step() {
            Stepped::Went => {}
            Stepped::Exit(status) => {
                return Ok(Ran {
                    written,
                    asked,
                    status,
                });
            }
            Stepped::Fault(at) => panic!(rt; "a fault at {at:x}"),
            Stepped::Asked { channel, at, len } => {
                assert_eq!(rt; channel, 1);
                assert!(rt; len <= 1_000_000);
                let answer = answers.get(asked.len()).copied().unwrap_or(len as i64);
                asked.push(len)?;
                let taken = if answer > 0 && answer <= len as i64 {
                    answer as u64
                } else {
                    0
                };
                for i in 0..taken {
                    let place = at.checked_add(i).expect(rt, "an address");
                    written.push(machine.byte(place).expect(rt, "a byte"))?;
                }
                machine.answer(answer);
            }
        }
    }
    panic!(rt; "no end")
}

#[test]
fn an_executable_writes_its_text_whatever_the_kernel_answers(rt: HostRuntime) -> Result<(), Fail> {
    let file = compile(rt.alloc(), HI, SMALL).expect(&rt, "an executable");
    let cases: [(&[i64], &[u64], &[u8], u8); 8] = [
        (&[], &[3], b"hi\n", 0),
        (&[1, -4, 2], &[3, 2, 2], b"hi\n", 0),
        (&[-4, -4, 3], &[3, 3, 3], b"hi\n", 0),
        (&[0], &[3], b"", 104),
        (&[1, -5], &[3, 2], b"h", 104),
        (&[4], &[3], b"", 104),
        (&[2, 2], &[3, 1], b"hi", 104),
        (&[i64::MIN], &[3], b"", 104),
    ];
    for (answers, asked, bytes, status) in cases {
        let ran = run(&rt, rt.alloc(), file.as_slice(), answers)?;
        assert_eq!(rt; ran.written.as_slice(), bytes);
        assert_eq!(rt; ran.asked.as_slice(), asked);
        assert_eq!(rt; ran.status, status);
    }
    Ok(())
}

#[test]
fn files_of_printing_items_are_compiled(rt: HostRuntime) -> Result<(), Fail> {
    let printed: [(&[u8], &[u64], &[u8]); 9] = [
        (b"", &[], b""),
        (b" ;; (* \"*)\" *) ;;\r\n", &[], b""),
        (b"let () = print_string \"\"", &[], b""),
        (b" \t\nlet () = print_string \"a\" \n\t", &[1], b"a"),
        (
            b"let()=print_string\"\\065\\x42\\o103\\t\\n\\\\\"",
            &[6],
            b"ABC\t\n\\",
        ),
        (b"let () = print_string \"a\nb\"", &[3], b"a\nb"),
        (
            b"let () = print_string \"ab\" let () = print_string \"\" let () = print_string \"c\"",
            &[2, 1],
            b"abc",
        ),
        (
            b"let () = print_string \"b\";;let () = print_string \"a\";;",
            &[1, 1],
            b"ba",
        ),
        (
            b"let () = print_string \"let () = 1;; (* *)\"",
            &[18],
            b"let () = 1;; (* *)",
        ),
    ];
    for (source, asked, text) in printed {
        let file = compile(rt.alloc(), source, SMALL).expect(&rt, "an executable");
        let ran = run(&rt, rt.alloc(), file.as_slice(), &[])?;
        assert_eq!(rt; ran.written.as_slice(), text);
        assert_eq!(rt; ran.asked.as_slice(), asked);
        assert_eq!(rt; ran.status, 0);
    }
    Ok(())
}

fn refused(rule: Rule, start: u32, end: u32) -> Option<CompileErr> {
    Some(CompileErr::Refused(Refusal {
        rule,
        span: Span { start, end },
    }))
}

#[test]
fn the_first_refusal_in_order_is_named(rt: HostRuntime) -> Result<(), Fail> {
    let cases: [(&[u8], Rule, u32, u32); 49] = [
        // lexical faults come before all others
        (b"let () = () (* cut", Rule::OpenComment, 12, 14),
        (
            b"let () = print_int 4611686018427387904",
            Rule::BadNumber,
            19,
            38,
        ),
        (b"let let \"", Rule::OpenText, 8, 9),
        (b"let () = print_int 1 #", Rule::OutsideAlphabet, 21, 22),
        (b"let () = print_string \"\\q\"", Rule::BadEscape, 23, 25),
        (b"let () = print_string \"a", Rule::OpenText, 22, 23),
        (b"let f x =\n  x (1 +", Rule::Syntax, 18, 18),
        // then the syntax, before the form
        (b"let () = print_int 1 let", Rule::Syntax, 24, 24),
        (b"let () = print_int 1 )", Rule::Syntax, 21, 22),
        (b"print_string \"a\"", Rule::Syntax, 0, 12),
        (b"let () = print_strinG \"a\" let", Rule::Syntax, 29, 29),
        // then names: the first by its place
        (b"let () = print_strinG \"a\"", Rule::UnboundValue, 9, 21),
        (b"let () = x let () = y", Rule::UnboundValue, 9, 10),
        (
            b"let () = print_int 1 type t = u",
            Rule::UnboundType,
            30,
            31,
        ),
        (b"let f () = C", Rule::UnboundConstructor, 11, 12),
        (b"let f (x, x) = x", Rule::BoundTwice, 10, 11),
        (b"type t = u let () = x", Rule::UnboundType, 9, 10),
        // then declarations
        (b"type 'a t = C type u = t", Rule::ArgumentCount, 23, 24),
        (b"type t = 'a", Rule::UnboundVariable, 9, 11),
        (b"type t = C type t = D", Rule::DeclaredTwice, 16, 17),
        (b"type t = t", Rule::CyclicAbbreviation, 5, 6),
        (
            b"let () = print_int \"a\" type t = 'a",
            Rule::UnboundVariable,
            32,
            34,
        ),
        // then types: the first part of the program whose equation leaves no solution
        (b"let () = print_int \"a\"", Rule::TypesDiffer, 19, 22),
        (b"let f x = x x", Rule::InfiniteType, 12, 13),
        (
            b"let x = 1 let f x = x x let () = print_int \"a\"",
            Rule::InfiniteType,
            22,
            23,
        ),
        (
            b"let () = print_string \"a\" \"b\"",
            Rule::TypesDiffer,
            9,
            21,
        ),
        (b"let () = print_int \"one\"", Rule::TypesDiffer, 19, 24),
        (
            b"let a = print_string \"a\" \"b\"",
            Rule::TypesDiffer,
            8,
            20,
        ),
        (b"let () = print_string 'a'", Rule::TypesDiffer, 22, 25),
        (b"let () = print_string", Rule::TypesDiffer, 9, 21),
        // then comparisons
        (b"let a = (1, 2) = (3, 4)", Rule::Comparison, 8, 23),
        (b"let f x y = x < y", Rule::Comparison, 12, 17),
        (
            b"let least a b = if a < b then a else b",
            Rule::Comparison,
            19,
            24,
        ),
        (
            b"let f x y = x < y let () = print_int \"a\"",
            Rule::TypesDiffer,
            37,
            40,
        ),
        (
            b"let x = 1 let f x y = x < y let a = f = f",
            Rule::Comparison,
            22,
            27,
        ),
        // then the first item of the file that is not built
        (
            b"let least (a : int) b = if a < b then a else b",
            Rule::LeftOut,
            0,
            46,
        ),
        (
            b"type t = T of (t -> int) let f (T g) = g (T g)",
            Rule::LeftOut,
            0,
            24,
        ),
        (b"let () = print_int 1", Rule::LeftOut, 0, 20),
        (
            b"let () = print_string \"a\" let x = 1 let y = 2",
            Rule::LeftOut,
            26,
            35,
        ),
        (
            b" type t = A;; let () = print_string \"a\"",
            Rule::LeftOut,
            1,
            11,
        ),
        (b"let () = (print_string \"a\")", Rule::LeftOut, 0, 27),
        (b"let () = print_string (\"a\")", Rule::LeftOut, 0, 27),
        (b"let (()) = print_string \"a\"", Rule::LeftOut, 0, 27),
        (b"let () : unit = print_string \"a\"", Rule::LeftOut, 0, 32),
        (b"let f () = print_string \"a\"", Rule::LeftOut, 0, 27),
        (b"let _ = print_string \"a\"", Rule::LeftOut, 0, 24),
        (b"let rec () = print_string \"a\"", Rule::LeftOut, 8, 10),
        (
            b"let () = print_string \"a\" and () = ()",
            Rule::LeftOut,
            0,
            37,
        ),
        (b"let () = prerr_string \"a\"", Rule::LeftOut, 0, 25),
    ];
    for (source, rule, start, end) in cases {
        assert_eq!(rt;
            compile(rt.alloc(), source, SMALL).err(),
            refused(rule, start, end)
        );
    }
    Ok(())
}

/// An item that calls `d`, which makes a pair of two equal values, so many times.
fn doubled(alloc: Global, times: usize) -> Result<Vec<u8>, Fail> {
    let mut source = b"let d x = (x, x)\nlet () = ignore ".to_vec(alloc)?;
    source.extend_from_slice(repeated(alloc, b"(d ", times)?.as_slice())?;
    source.push(b'0')?;
    source.extend_from_slice(vec![in alloc; b')'; times]?.as_slice())?;
    Ok(source)
}

#[test]
fn types_are_taken_up_to_the_limit_of_their_size(rt: HostRuntime) -> Result<(), Fail> {
    let alloc = rt.alloc();
    let most = doubled(alloc, 9)?;
    let err = compile(alloc, most.as_slice(), SMALL).err();
    assert_eq!(rt; err, refused(Rule::LeftOut, 0, 16));
    // the tenth call, which is the outermost
    let mut over = doubled(alloc, 10)?;
    let limit = Some(CompileErr::Limit(Limit::TypeSize(2_001), Some(Span { start: 34, end: 73 })));
    assert_eq!(rt; compile(alloc, over.as_slice(), SMALL).err(), limit);
    let named = b"let d x = (x, x)\nlet a = d (d (d (d (d (d (d (d (d (d 0)))))))))";
    let limit = Some(CompileErr::Limit(Limit::TypeSize(2_001), Some(Span { start: 25, end: 64 })));
    assert_eq!(rt; compile(alloc, named.as_slice(), SMALL).err(), limit);
    // the limit before comparisons, wherever they stand, and the earlier step first
    let mut first = b"let f x y = x < y\n".to_vec(alloc)?;
    first.extend_from_slice(over.as_slice())?;
    let limit = Some(CompileErr::Limit(Limit::TypeSize(2_001), Some(Span { start: 52, end: 91 })));
    assert_eq!(rt; compile(alloc, first.as_slice(), SMALL).err(), limit);
    let mut before = b"let f x = x x\n".to_vec(alloc)?;
    before.extend_from_slice(over.as_slice())?;
    let err = compile(alloc, before.as_slice(), SMALL).err();
    assert_eq!(rt; err, refused(Rule::InfiniteType, 12, 13));
    over.extend_from_slice(b" let f x = x x")?;
    let limit = Some(CompileErr::Limit(Limit::TypeSize(2_001), Some(Span { start: 34, end: 73 })));
    assert_eq!(rt; compile(alloc, over.as_slice(), SMALL).err(), limit);
    Ok(())
}

/// `front`, so many times `open`, `middle`, so many times `close`.
fn nested(
    alloc: Global,
    front: &[u8],
    open: u8,
    middle: &[u8],
    close: u8,
    times: usize,
) -> Result<Vec<u8>, Fail> {
    let mut source = front.to_vec(alloc)?;
    source.extend_from_slice(vec![in alloc; open; times]?.as_slice())?;
    source.extend_from_slice(middle)?;
    source.extend_from_slice(vec![in alloc; close; times]?.as_slice())?;
    Ok(source)
}

#[test]
fn deep_sources_are_read_up_to_the_limit(rt: HostRuntime) -> Result<(), Fail> {
    let alloc = rt.alloc();
    let value = nested(alloc, b"let () = ", b'(', b"()", b')', 999)?;
    let err = compile(alloc, value.as_slice(), SMALL).err();
    assert_eq!(rt; err, refused(Rule::LeftOut, 0, 2009));
    let named = nested(alloc, b"type t = ", b'(', b"int", b')', 999)?;
    let err = compile(alloc, named.as_slice(), SMALL).err();
    assert_eq!(rt; err, refused(Rule::LeftOut, 0, 2010));
    for (front, middle) in [(b"let () = ", b"() ".as_slice()), (b"type t = ", b"int")] {
        let deep = nested(alloc, front.as_slice(), b'(', middle, b')', 1_000)?;
        match compile(alloc, deep.as_slice(), SMALL) {
            Err(CompileErr::Refused(refusal)) => assert_eq!(rt; refusal.rule, Rule::Syntax),
            _ => panic!(rt; "a source that is too deep is not refused"),
        }
    }
    Ok(())
}

/// So many times a text.
fn repeated(alloc: Global, text: &[u8], times: usize) -> Result<Vec<u8>, Fail> {
    let mut source = Vec::new(alloc);
    for _ in 0..times {
        source.extend_from_slice(text)?;
    }
    Ok(source)
}

#[test]
fn limits_are_named_before_what_stands_behind_them(rt: HostRuntime) -> Result<(), Fail> {
    let alloc = rt.alloc();
    let bytes = CompileErr::Limit(Limit::Bytes(1_048_577), None);
    let tokens = CompileErr::Limit(Limit::Tokens(200_001), None);
    let cases: [(&[u8], usize, Option<CompileErr>); 4] = [
        (b" ", 1_048_576, None),
        (b" ", 1_048_577, Some(bytes)),
        (b";;", 200_000, None),
        (b";;", 200_001, Some(tokens)),
    ];
    for (text, times, error) in cases {
        let source = repeated(alloc, text, times)?;
        assert_eq!(rt; compile(alloc, source.as_slice(), SMALL).err(), error);
    }
    let mut source = repeated(alloc, b";;", 200_001)?;
    source.push(b'#')?;
    assert_eq!(rt;
        compile(alloc, source.as_slice(), SMALL).err(),
        Some(tokens)
    );
    Ok(())
}

/// The elements `a0; a1; .. a999`.
fn thousand_names(alloc: Global) -> Result<Vec<u8>, Fail> {
    let mut names = Vec::new(alloc);
    for number in 0..1_000u32 {
        let name = format!(in alloc; "a{number};")?;
        names.extend_from_slice(name.as_bytes())?;
    }
    Ok(names)
}

/// A source with so many functions, one in the other, that each capture 1,000 names.
fn capturing(alloc: Global, functions: usize) -> Result<Vec<u8>, Fail> {
    let names = thousand_names(alloc)?;
    let mut source = b"let f l = match l with [".to_vec(alloc)?;
    source.extend_from_slice(names.as_slice())?;
    source.extend_from_slice(b"] -> ")?;
    source.extend_from_slice(repeated(alloc, b"fun _ -> ", functions)?.as_slice())?;
    source.push(b'[')?;
    source.extend_from_slice(names.as_slice())?;
    source.push(b']')?;
    Ok(source)
}

#[test]
fn captures_are_counted_up_to_the_limit(rt: HostRuntime) -> Result<(), Fail> {
    let alloc = rt.alloc();
    let most = capturing(alloc, 100)?;
    match compile(alloc, most.as_slice(), SMALL) {
        Err(CompileErr::Refused(refusal)) => assert_eq!(rt; refusal.rule, Rule::LeftOut),
        _ => panic!(rt; "a source within the limit is not read"),
    }
    let over = capturing(alloc, 101)?;
    let error = compile(alloc, over.as_slice(), SMALL).err();
    let limit = Limit::Captures(100_001);
    assert_eq!(rt; error, Some(CompileErr::Limit(limit, None)));
    Ok(())
}

#[test]
fn many_items_are_compiled(rt: HostRuntime) -> Result<(), Fail> {
    let alloc = rt.alloc();
    let source = repeated(alloc, b"let () = print_string \"a\"\n", 20_000)?;
    let file = compile(alloc, source.as_slice(), SMALL).expect(&rt, "an executable");
    assert!(rt; load(alloc, file.as_slice()).is_ok());
    Ok(())
}

#[test]
fn a_changed_image_is_refused(rt: HostRuntime) -> Result<(), Fail> {
    let mut file = compile(rt.alloc(), HI, SMALL).expect(&rt, "an executable");
    for (length, error) in [(63, ImageErr::Short), (100, ImageErr::Segment(0))] {
        let front = file.as_slice().get(..length).expect(&rt, "so many bytes");
        assert_eq!(rt; load(rt.alloc(), front).err(), Some(error));
    }
    let changes = [
        (0, 0, ImageErr::Magic),
        (4, 1, ImageErr::Kind),
        (64, 2, ImageErr::Segment(0)),
        // the code of this text ends before 0x4000FF
        (24, 0xFF, ImageErr::Entry),
        (28, 0xFF, ImageErr::Entry),
    ];
    for (at, byte, error) in changes {
        assert!(rt; at < file.len());
        let was = file[at];
        file[at] = byte;
        assert_eq!(rt; load(rt.alloc(), file.as_slice()).err(), Some(error));
        file[at] = was;
    }
    Ok(())
}

/// A command, what fails of the outside, and what it comes to.
#[derive(Clone, Copy)]
struct Case<'a> {
    words: &'a [&'a str],
    /// The calls that fail of the shelf, and of err.
    fail: (&'a [u64], &'a [u64]),
    status: u8,
    err: &'a [u8],
}

const USAGE: &[u8] = b"usage: oxml build|check|run|sim|places|sample|sample-build\n";

const CASES: [Case<'static>; 22] = [
    Case {
        words: &["build", "hi.ml", "-o", "hi"],
        fail: (&[], &[]),
        status: 0,
        err: b"",
    },
    Case {
        words: &["build", "-", "-o", "-"],
        fail: (&[], &[]),
        status: 3,
        err: b"oxml: read fault: -\n",
    },
    Case {
        words: &["build", "a.ml", "-o", "a"],
        fail: (&[], &[]),
        status: 1,
        err: b"a.ml:1:1: rule 25: form left out\n",
    },
    Case {
        words: &["build", "number.ml", "-o", "a"],
        fail: (&[], &[]),
        status: 1,
        err: b"number.ml:1:20: rule 5: bad number literal\n",
    },
    Case {
        words: &["build", "comment.ml", "-o", "a"],
        fail: (&[], &[]),
        status: 1,
        err: b"comment.ml:2:6: rule 2: comment is not closed\n",
    },
    Case {
        words: &["build", "cut.ml", "-o", "a"],
        fail: (&[], &[]),
        status: 1,
        err: b"cut.ml:2:9: rule 10: syntax\n",
    },
    Case {
        words: &["build", "unbound.ml", "-o", "a"],
        fail: (&[], &[]),
        status: 1,
        err: b"unbound.ml:2:1: rule 20: unbound value\n",
    },
    Case {
        words: &["build", "differ.ml", "-o", "a"],
        fail: (&[], &[]),
        status: 1,
        err: b"differ.ml:2:12: rule 40: types differ\n",
    },
    Case {
        words: &["build", "infinite.ml", "-o", "a"],
        fail: (&[], &[]),
        status: 1,
        err: b"infinite.ml:1:13: rule 41: type would contain itself\n",
    },
    Case {
        words: &["build", "compare.ml", "-o", "a"],
        fail: (&[], &[]),
        status: 1,
        err: b"compare.ml:1:9: rule 42: comparison at this type\n",
    },
    Case {
        words: &["build", "size.ml", "-o", "a"],
        fail: (&[], &[]),
        status: 5,
        err: b"size.ml:2:18: limit type size 2001\n",
    },
    Case {
        words: &["build", "tokens.ml", "-o", "a"],
        fail: (&[], &[]),
        status: 5,
        err: b"tokens.ml: limit tokens 200001\n",
    },
    Case {
        words: &["build", "captures.ml", "-o", "a"],
        fail: (&[], &[]),
        status: 5,
        err: b"captures.ml: limit captures 100001\n",
    },
    Case {
        words: &["build", "a.ml", "-o", "a"],
        fail: (&[], &[0]),
        status: 4,
        err: b"oxml: write fault\n",
    },
    Case {
        words: &["build", "long.ml", "-o", "a"],
        fail: (&[], &[]),
        status: 5,
        err: b"long.ml: limit bytes 1048577\n",
    },
    Case {
        words: &["build", "no.ml", "-o", "a"],
        fail: (&[], &[]),
        status: 3,
        err: b"oxml: read fault: no.ml\n",
    },
    Case {
        words: &["build", "hi.ml", "-o", "hi"],
        fail: (&[0], &[]),
        status: 3,
        err: b"oxml: read fault: hi.ml\n",
    },
    Case {
        words: &["build", "hi.ml", "-o", "hi"],
        fail: (&[1], &[]),
        status: 4,
        err: b"oxml: write fault\n",
    },
    Case {
        words: &["bild", "hi.ml"],
        fail: (&[], &[]),
        status: 2,
        err: USAGE,
    },
    Case {
        words: &[],
        fail: (&[], &[0]),
        status: 4,
        err: b"oxml: write fault\n",
    },
    Case {
        words: &["build", "-x", "-o", "hi"],
        fail: (&[], &[]),
        status: 2,
        err: USAGE,
    },
    Case {
        words: &["build", "hi.ml", "-o", "hi", "-o"],
        fail: (&[], &[]),
        status: 2,
        err: USAGE,
    },
];

#[test]
fn each_status_has_its_line(rt: HostRuntime) -> Result<(), Fail> {
    let alloc = rt.alloc();
    let long = vec![in alloc; b' '; 1_048_577]?;
    let tokens = repeated(alloc, b";;", 200_001)?;
    let captures = capturing(alloc, 101)?;
    let size = doubled(alloc, 10)?;
    for case in CASES {
        let mut shelf = MemShelf::new(alloc, case.fail.0.to_vec(alloc)?);
        shelf.hold("hi.ml", HI)?;
        shelf.hold("a.ml", b"let () = print_int 1")?;
        shelf.hold("number.ml", b"let () = print_int 4611686018427387904")?;
        shelf.hold("comment.ml", b"let () =\n  () (* cut")?;
        shelf.hold("cut.ml", b"let f x =\n  x (1 +")?;
        shelf.hold("long.ml", long.as_slice())?;
        shelf.hold("tokens.ml", tokens.as_slice())?;
        shelf.hold("unbound.ml", b"let f () =\nx")?;
        shelf.hold("differ.ml", b"let a =\n print_int \"a\"")?;
        shelf.hold("infinite.ml", b"let f x = x x")?;
        shelf.hold("compare.ml", b"let a = (1, 2) = (3, 4)")?;
        shelf.hold("size.ml", size.as_slice())?;
        shelf.hold("captures.ml", captures.as_slice())?;
        let mut out = MemSink::new(alloc, 100, vec![in alloc]?)?;
        let mut err = MemSink::new(alloc, 100, case.fail.1.to_vec(alloc)?)?;
        let status = oxml(alloc, case.words, &mut shelf, &mut out, &mut err);
        assert_eq!(rt; status, case.status);
        assert_eq!(rt; err.bytes(), case.err);
        assert_eq!(rt; out.bytes(), b"".as_slice());
        assert_eq!(rt; shelf.get("hi").is_some(), status == 0);
        assert!(rt; shelf.get("a").is_none());
    }
    Ok(())
}

#[test]
fn an_executable_of_the_default_sizes_runs(rt: HostRuntime) -> Result<(), Fail> {
    let alloc = rt.alloc();
    let mut shelf = MemShelf::new(alloc, vec![in alloc]?);
    shelf.hold("hi.ml", HI)?;
    let mut out = MemSink::new(alloc, 100, vec![in alloc]?)?;
    let mut err = MemSink::new(alloc, 100, vec![in alloc]?)?;
    let words = ["build", "hi.ml", "-o", "hi"];
    assert_eq!(rt; oxml(alloc, &words, &mut shelf, &mut out, &mut err), 0);
    let mut file = Vec::new(alloc);
    assert_eq!(rt; shelf.load("hi", &mut file, 10_000), Ok(()));
    let ran = run(&rt, rt.alloc(), file.as_slice(), &[])?;
    assert_eq!(rt; ran.written.as_slice(), b"hi\n".as_slice());
    assert_eq!(rt; ran.status, 0);
    Ok(())
}
