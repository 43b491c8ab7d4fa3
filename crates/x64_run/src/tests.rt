use crate::{Put, SimEnd, simulate};
use oxml_base::{Items, NoMemory};
use std::alloc::Global;
use std::process::Abort;
use std::test::Fail;
use x64_table::{Image, Segment};

fn segment(
    alloc: Global,
    at: u64,
    size: u64,
    flags: u8,
    bytes: &[u8],
) -> Result<Segment, NoMemory> {
    Ok(Segment {
        at,
        size,
        flags,
        bytes: Items::from_slice(alloc, bytes)?,
    })
}

/// A program of these bytes, with the data `hi` and a newline, and 64 bytes each of area, local
/// stack and call stack.
fn image(alloc: Global, code: &[u8]) -> Result<Image, NoMemory> {
    image_with(alloc, code, 8, b"hi\n")
}

/// The same, with these data in so many bytes.
fn image_with(alloc: Global, code: &[u8], data_size: u64, data: &[u8]) -> Result<Image, NoMemory> {
    let mut segments = Items::new(alloc);
    let size = code.len() as u64;
    segments.push(segment(alloc, 0x40_0000, size, 5, code)?)?;
    segments.push(segment(alloc, 0x4000_0000, data_size, 6, data)?)?;
    segments.push(segment(alloc, 0x1_0000_0000, 64, 6, &[])?)?;
    segments.push(segment(alloc, 0x2_0000_0000, 64, 6, &[])?)?;
    segments.push(segment(alloc, 0x3_0000_0000, 64, 6, &[])?)?;
    Ok(Image {
        entry: 0x40_0000,
        segments,
    })
}

/// After at most 100 steps the program of these bytes has ended so, and has written these bytes
/// on channel 1.
fn ends(
    rt: &impl Abort,
    alloc: Global,
    code: &[u8],
    answers: &[i64],
    end: SimEnd,
    text: &[u8],
) -> Result<(), NoMemory> {
    let mut out = Vec::new(alloc);
    let got = simulate(alloc, &image(alloc, code)?, 100, answers, &mut out)?;
    assert_eq!(rt; got, end, "{code:?}");
    let mut want = Vec::new(alloc);
    for byte in text {
        want.push(Put {
            channel: 1,
            byte: *byte,
        })?;
    }
    assert_eq!(rt; out.as_slice(), want.as_slice(), "{code:?}");
    Ok(())
}

/// mov rdi, 1; mov rsi, 0x40000000; mov rdx, 3; mov rax, 1; syscall; mov rdi, rax; mov rax, 60;
/// syscall: writes three bytes, and exits with the kernel's answer.
#[rattlefmt::skip]
const WRITE: [u8; 67] = [
    0x48, 0xbf, 1, 0, 0, 0, 0, 0, 0, 0,
    0x48, 0xbe, 0, 0, 0, 0x40, 0, 0, 0, 0,
    0x48, 0xba, 3, 0, 0, 0, 0, 0, 0, 0,
    0x48, 0xb8, 1, 0, 0, 0, 0, 0, 0, 0,
    0x0f, 0x05,
    0x48, 0x89, 0xc7,
    0x48, 0xb8, 60, 0, 0, 0, 0, 0, 0, 0,
    0x0f, 0x05,
    0x0f, 0x05, 0x0f, 0x05, 0x0f, 0x05, 0x0f, 0x05, 0x0f, 0x05,
];

#[test]
fn answers_take_bytes(rt: HostRuntime) -> Result<(), Fail> {
    let alloc = rt.alloc();
    ends(&rt, alloc, &WRITE, &[], SimEnd::Exit(3), b"hi\n")?;
    ends(&rt, alloc, &WRITE, &[1], SimEnd::Exit(1), b"h")?;
    ends(&rt, alloc, &WRITE, &[3, 1], SimEnd::Exit(3), b"hi\n")?;
    ends(&rt, alloc, &WRITE, &[0], SimEnd::Exit(0), b"")?;
    ends(&rt, alloc, &WRITE, &[4], SimEnd::Exit(4), b"")?;
    ends(&rt, alloc, &WRITE, &[-4], SimEnd::Exit(252), b"")?;
    ends(&rt, alloc, &WRITE, &[-5], SimEnd::Exit(251), b"")?;
    Ok(())
}

#[test]
fn steps_are_counted(rt: HostRuntime) -> Result<(), Fail> {
    let alloc = rt.alloc();
    let image = image(alloc, &WRITE)?;
    for (steps, end, bytes) in [
        (0, SimEnd::More, 0),
        (4, SimEnd::More, 0),
        (5, SimEnd::More, 3),
        (7, SimEnd::More, 3),
        (8, SimEnd::Exit(3), 3),
        (9, SimEnd::Exit(3), 3),
    ] {
        let mut out = Vec::new(alloc);
        assert_eq!(rt; simulate(alloc, &image, steps, &[], &mut out)?, end);
        assert_eq!(rt; out.len(), bytes);
    }
    Ok(())
}

/// Programs that fault at their last instruction, whose place is given from the entry.
const FAULTS: [(u64, &[u8]); 20] = [
    // nop has no row
    (0, &[0x90]),
    // mov rax, rcx: undefined
    (0, &[0x48, 0x89, 0xc8]),
    // je: the flags are undefined
    (0, &[0x0f, 0x84, 0, 0, 0, 0]),
    // jmp far outside
    (0x105, &[0xe9, 0, 1, 0, 0]),
    // mov rax, 0x40000004; mov rcx, [rax]: four bytes are outside
    (
        10,
        &[
            0x48, 0xb8, 4, 0, 0, 0x40, 0, 0, 0, 0, 0x48, 0x8b, 0x88, 0, 0, 0, 0,
        ],
    ),
    // mov rax, 0x400000; mov [rax], rax: against the flags
    (
        10,
        &[
            0x48, 0xb8, 0, 0, 0x40, 0, 0, 0, 0, 0, 0x48, 0x89, 0x80, 0, 0, 0, 0,
        ],
    ),
    // mov rax, 0x40000000; jmp rax: no code there
    (
        0x3fc0_0000,
        &[0x48, 0xb8, 0, 0, 0, 0x40, 0, 0, 0, 0, 0x40, 0xff, 0xe0],
    ),
    // mov rax, 0x100000000; mov rcx, [rax]: r15 is undefined
    (
        10,
        &[
            0x48, 0xb8, 0, 0, 0, 0, 1, 0, 0, 0, 0x48, 0x8b, 0x88, 0, 0, 0, 0,
        ],
    ),
    // mov rax, 0x100000000; mov r15, rax; mov rcx, [rax]: the whole area is closed
    (
        13,
        &[
            0x48, 0xb8, 0, 0, 0, 0, 1, 0, 0, 0, 0x49, 0x89, 0xc7, 0x48, 0x8b, 0x88, 0, 0, 0, 0,
        ],
    ),
    // mov rax, 0x200000000; mov r14, rax; mov [rax], rax: the whole local stack is closed
    (
        13,
        &[
            0x48, 0xb8, 0, 0, 0, 0, 2, 0, 0, 0, 0x49, 0x89, 0xc6, 0x48, 0x89, 0x80, 0, 0, 0, 0,
        ],
    ),
    // mov rsp, 0x300000040; mov rcx, [rsp - 8]: below rsp
    (
        10,
        &[
            0x48, 0xbc, 0x40, 0, 0, 0, 3, 0, 0, 0, 0x48, 0x8b, 0x8c, 0x24, 0xf8, 0xff, 0xff, 0xff,
        ],
    ),
    // mov rsp, 0x300000000; call: no room for the return address
    (10, &[0x48, 0xbc, 0, 0, 0, 0, 3, 0, 0, 0, 0xe8, 0, 0, 0, 0]),
    // mov rax, 0; mov rdx, 0; idiv rax: by zero
    (
        20,
        &[
            0x48, 0xb8, 0, 0, 0, 0, 0, 0, 0, 0, 0x48, 0xba, 0, 0, 0, 0, 0, 0, 0, 0, 0x48, 0xf7,
            0xf8,
        ],
    ),
    // mov rax, -2^63; mov rdx, -1; mov rcx, -1; idiv rcx: 2^63 does not fit
    (
        30,
        &[
            0x48, 0xb8, 0, 0, 0, 0, 0, 0, 0, 0x80, 0x48, 0xba, 0xff, 0xff, 0xff, 0xff, 0xff, 0xff,
            0xff, 0xff, 0x48, 0xb9, 0xff, 0xff, 0xff, 0xff, 0xff, 0xff, 0xff, 0xff, 0x48, 0xf7,
            0xf9,
        ],
    ),
    // mov rax, 1; shl rax, 1; je: a shift leaves the flags undefined
    (
        14,
        &[
            0x48, 0xb8, 1, 0, 0, 0, 0, 0, 0, 0, 0x48, 0xc1, 0xe0, 1, 0x0f, 0x84, 0, 0, 0, 0,
        ],
    ),
    // a write of no bytes
    (
        40,
        &[
            0x48, 0xbf, 1, 0, 0, 0, 0, 0, 0, 0, 0x48, 0xbe, 0, 0, 0, 0x40, 0, 0, 0, 0, 0x48, 0xba,
            0, 0, 0, 0, 0, 0, 0, 0, 0x48, 0xb8, 1, 0, 0, 0, 0, 0, 0, 0, 0x0f, 0x05,
        ],
    ),
    // a write on channel 3
    (
        40,
        &[
            0x48, 0xbf, 3, 0, 0, 0, 0, 0, 0, 0, 0x48, 0xbe, 0, 0, 0, 0x40, 0, 0, 0, 0, 0x48, 0xba,
            1, 0, 0, 0, 0, 0, 0, 0, 0x48, 0xb8, 1, 0, 0, 0, 0, 0, 0, 0, 0x0f, 0x05,
        ],
    ),
    // a write of nine bytes, of which eight are there
    (
        40,
        &[
            0x48, 0xbf, 1, 0, 0, 0, 0, 0, 0, 0, 0x48, 0xbe, 0, 0, 0, 0x40, 0, 0, 0, 0, 0x48, 0xba,
            9, 0, 0, 0, 0, 0, 0, 0, 0x48, 0xb8, 1, 0, 0, 0, 0, 0, 0, 0, 0x0f, 0x05,
        ],
    ),
    // a write of bytes of the area while r15 is undefined
    (
        40,
        &[
            0x48, 0xbf, 1, 0, 0, 0, 0, 0, 0, 0, 0x48, 0xbe, 0, 0, 0, 0, 1, 0, 0, 0, 0x48, 0xba, 1,
            0, 0, 0, 0, 0, 0, 0, 0x48, 0xb8, 1, 0, 0, 0, 0, 0, 0, 0, 0x0f, 0x05,
        ],
    ),
    // mov rax, 2; syscall: another number
    (10, &[0x48, 0xb8, 2, 0, 0, 0, 0, 0, 0, 0, 0x0f, 0x05]),
];

#[test]
fn faults_are_told(rt: HostRuntime) -> Result<(), Fail> {
    for (at, code) in FAULTS {
        assert!(rt; at < 0x1_0000_0000);
        ends(
            &rt,
            rt.alloc(),
            code,
            &[],
            SimEnd::Fault(0x40_0000 + at),
            b"",
        )?;
    }
    Ok(())
}

/// mov rsp, 0x300000040; call over the next three; mov rax, 60; mov rdi, rcx; syscall; and at the
/// call's target mov rcx, 10; sub rcx, 3 (an immediate); imul rcx, rcx; ret.
#[rattlefmt::skip]
const CALL: [u8; 53] = [
    0x48, 0xbc, 0x40, 0, 0, 0, 3, 0, 0, 0,
    0xe8, 15, 0, 0, 0,
    0x48, 0xb8, 60, 0, 0, 0, 0, 0, 0, 0,
    0x48, 0x89, 0xcf,
    0x0f, 0x05,
    0x48, 0xb9, 10, 0, 0, 0, 0, 0, 0, 0,
    0x48, 0x81, 0xe9, 3, 0, 0, 0,
    0x48, 0x0f, 0xaf, 0xc9,
    0xc3,
    0x90,
];

#[test]
fn calls_return(rt: HostRuntime) -> Result<(), Fail> {
    ends(&rt, rt.alloc(), &CALL, &[], SimEnd::Exit(49), b"")?;
    Ok(())
}

/// mov rdi, 2; mov rsi, 0x40000000; mov rdx, 40; mov rax, 1; syscall; mov rdi, 2; mov rax, 60;
/// syscall: a program that fails.
#[rattlefmt::skip]
const FAIL: [u8; 64] = [
    0x48, 0xbf, 2, 0, 0, 0, 0, 0, 0, 0,
    0x48, 0xbe, 0, 0, 0, 0x40, 0, 0, 0, 0,
    0x48, 0xba, 40, 0, 0, 0, 0, 0, 0, 0,
    0x48, 0xb8, 1, 0, 0, 0, 0, 0, 0, 0,
    0x0f, 0x05,
    0x48, 0xbf, 2, 0, 0, 0, 0, 0, 0, 0,
    0x48, 0xb8, 60, 0, 0, 0, 0, 0, 0, 0,
    0x0f, 0x05,
];

#[test]
fn a_failure_is_written_on_channel_2(rt: HostRuntime) -> Result<(), Fail> {
    let alloc = rt.alloc();
    let line = b"Fatal error: exception Division_by_zero\n";
    let image = image_with(alloc, &FAIL, 40, line)?;
    let mut out = Vec::new(alloc);
    assert_eq!(rt;
        simulate(alloc, &image, 100, &[], &mut out)?,
        SimEnd::Exit(2)
    );
    let mut want = Vec::new(alloc);
    for byte in line {
        want.push(Put {
            channel: 2,
            byte: *byte,
        })?;
    }
    assert_eq!(rt; out.as_slice(), want.as_slice());
    Ok(())
}
