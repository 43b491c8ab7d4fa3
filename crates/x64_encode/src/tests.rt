ghost use Rattle.std.specs.Prelude.{◌≡◌, true};
ghost use Rattle.x64_table.specs.Encoding.{is_row};

use crate::encode;
use crate::tables::{
    ARITH_IMMS, ARITHS, BRANCHES, BYTE_LOADS, BYTE_STORES, LEAS, LOADS, MOVES, PRODUCTS, SHIFT_CLS,
    SHIFT_IMMS, STORES, TESTS, WIDES,
};
use std::process::Abort;
use x64_table::{Instr, Reg, decode};

fn reg(rt: &impl Abort, n: u8) -> Reg {
    Reg::new(n).expect(rt, "a register")
}

/// An instruction is encoded as these bytes, which decode to one that is encoded so.
fn agrees(rt: &impl Abort, i: Instr, bytes: &[u8])
    requires { is_row i ≡ true }
{
    let (form, len) = encode(i);
    assert!(rt; len <= 15);
    assert_eq!(rt; &form[..len as usize], bytes);
    let (j, n) = decode(bytes).expect(rt, "a row");
    assert_eq!(rt; n, len);
    let (again, _) = encode(j);
    assert_eq!(rt; again, form);
}

#[test]
fn memory_operands_are_encoded(rt: HostRuntime) {
    for (r, b, disp, bytes) in LOADS {
        agrees(
            &rt,
            Instr::Load {
                dst: reg(&rt, r),
                base: reg(&rt, b),
                disp,
            },
            bytes,
        );
    }
    for (r, b, disp, bytes) in STORES {
        agrees(
            &rt,
            Instr::Store {
                base: reg(&rt, b),
                disp,
                src: reg(&rt, r),
            },
            bytes,
        );
    }
    for (r, b, disp, bytes) in LEAS {
        agrees(
            &rt,
            Instr::Lea {
                dst: reg(&rt, r),
                base: reg(&rt, b),
                disp,
            },
            bytes,
        );
    }
}

#[test]
fn byte_operands_are_encoded(rt: HostRuntime) {
    for (r, b, disp, bytes) in BYTE_LOADS {
        agrees(
            &rt,
            Instr::LoadByte {
                dst: reg(&rt, r),
                base: reg(&rt, b),
                disp,
            },
            bytes,
        );
    }
    for (r, b, disp, bytes) in BYTE_STORES {
        agrees(
            &rt,
            Instr::StoreByte {
                base: reg(&rt, b),
                disp,
                src: reg(&rt, r),
            },
            bytes,
        );
    }
}

#[test]
fn registers_are_encoded(rt: HostRuntime) {
    for (d, s, bytes) in MOVES {
        agrees(
            &rt,
            Instr::MovReg {
                dst: reg(&rt, d),
                src: reg(&rt, s),
            },
            bytes,
        );
    }
    for (op, d, s, bytes) in ARITHS {
        agrees(
            &rt,
            Instr::Arith {
                op,
                dst: reg(&rt, d),
                src: reg(&rt, s),
            },
            bytes,
        );
    }
    for (a, b, bytes) in TESTS {
        agrees(
            &rt,
            Instr::Test {
                a: reg(&rt, a),
                b: reg(&rt, b),
            },
            bytes,
        );
    }
    for (d, s, bytes) in PRODUCTS {
        agrees(
            &rt,
            Instr::Imul {
                dst: reg(&rt, d),
                src: reg(&rt, s),
            },
            bytes,
        );
    }
}

#[test]
fn immediates_are_encoded(rt: HostRuntime) {
    for (op, d, imm, bytes) in ARITH_IMMS {
        agrees(
            &rt,
            Instr::ArithImm {
                op,
                dst: reg(&rt, d),
                imm,
            },
            bytes,
        );
    }
    for (d, imm, bytes) in WIDES {
        agrees(
            &rt,
            Instr::MovImm {
                dst: reg(&rt, d),
                imm,
            },
            bytes,
        );
    }
    for (op, d, count, bytes) in SHIFT_IMMS {
        assert!(rt; count < 64);
        agrees(
            &rt,
            Instr::ShiftImm {
                op,
                dst: reg(&rt, d),
                count,
            },
            bytes,
        );
    }
    for (op, d, bytes) in SHIFT_CLS {
        agrees(
            &rt,
            Instr::ShiftCl {
                op,
                dst: reg(&rt, d),
            },
            bytes,
        );
    }
}

#[test]
fn one_register_is_encoded(rt: HostRuntime) {
    let a = reg(&rt, 0);
    let sp = reg(&rt, 4);
    let r10 = reg(&rt, 10);
    agrees(&rt, Instr::Neg { dst: a }, &[0x48, 0xf7, 0xd8]);
    agrees(&rt, Instr::Neg { dst: r10 }, &[0x49, 0xf7, 0xda]);
    agrees(&rt, Instr::Idiv { src: sp }, &[0x48, 0xf7, 0xfc]);
    agrees(&rt, Instr::Idiv { src: r10 }, &[0x49, 0xf7, 0xfa]);
    agrees(&rt, Instr::CallReg { to: a }, &[0x40, 0xff, 0xd0]);
    agrees(&rt, Instr::CallReg { to: r10 }, &[0x41, 0xff, 0xd2]);
    agrees(&rt, Instr::JumpReg { to: sp }, &[0x40, 0xff, 0xe4]);
    agrees(&rt, Instr::JumpReg { to: r10 }, &[0x41, 0xff, 0xe2]);
}

#[test]
fn jumps_and_calls_are_encoded(rt: HostRuntime) {
    for (cond, rel, bytes) in BRANCHES {
        agrees(&rt, Instr::JumpIf { cond, rel }, bytes);
    }
    agrees(
        &rt,
        Instr::Jump { rel: -1024 },
        &[0xe9, 0x00, 0xfc, 0xff, 0xff],
    );
    agrees(
        &rt,
        Instr::Call { rel: 4096 },
        &[0xe8, 0x00, 0x10, 0x00, 0x00],
    );
    agrees(&rt, Instr::Cqo, &[0x48, 0x99]);
    agrees(&rt, Instr::Ret, &[0xc3]);
    agrees(&rt, Instr::Syscall, &[0x0f, 0x05]);
}

/// Bytes that no row begins: other opcodes, what is cut short, prefixes with a bit too much, a REX
/// prefix that is missing, a count of 64, other forms of ModRM and SIB.
const NO_ROWS: [&[u8]; 14] = [
    &[],
    &[0x90],
    &[0x48, 0x01],
    &[0x48],
    &[0x0f, 0x81, 0, 0, 0, 0],
    &[0x4a, 0x89, 0xc8],
    &[0x48, 0xff, 0xd0],
    &[0x88, 0x83, 0, 0, 0, 0],
    &[0x48, 0xc1, 0xe0, 0x40],
    &[0x48, 0x8b, 0x00],
    &[0x48, 0x8b, 0x40, 0x08],
    &[0x48, 0x8b, 0x84, 0x25, 0, 0, 0, 0],
    &[0x48, 0x8b, 0x80, 0, 0, 0],
    &[0x4c, 0x81, 0xc1, 0, 0, 0, 0],
];

#[test]
fn other_bytes_have_no_row(rt: HostRuntime) {
    for bytes in NO_ROWS {
        assert!(rt; decode(bytes).is_none(), "{bytes:?}");
    }
}
