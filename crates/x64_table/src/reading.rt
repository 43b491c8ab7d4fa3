ghost use Rattle.std.specs.Prelude.{◌≡◌, ◌<◌, ◌≤◌, ◌+◌, IfSome, IfNone, slice_index};
ghost use Rattle.x64_table.specs.Numbers.{register};
ghost use Rattle.x64_table.specs.Encoding.{signed_at, wide_at_2, displacement, arith_of, arith_of_high, shift_of, cond_of, cond_of_high, cond_of_signed, guess, guess_move, guess_unary, guess_group, guess_high, guess_two, guess_one, guess_rex, guess_plain, is_row, length_at, read_row, decoded, ReadsRow, BeginsNoRow};

use crate::form::form_of;
use crate::instr::{ArithOp, Cond, Instr, ShiftOp};
use crate::reg::Reg;

/// The byte at `k`, or 0 past the end.
fn byte(bytes: &[u8], k: usize) -> u8
    ensures { result ≡ slice_index bytes.now k }
{
    if k < bytes.len() { bytes[k] } else { 0 }
}

/// The four bytes from `k` on, with sign.
fn signed_at(bytes: &[u8], k: usize) -> i32
    requires { k < 8 }
    ensures { result ≡ signed_at bytes.now k }
{
    i32::from_le_bytes([
        byte(bytes, k),
        byte(bytes, k + 1),
        byte(bytes, k + 2),
        byte(bytes, k + 3),
    ])
}

/// The eight bytes from 2 on.
fn wide_at_2(bytes: &[u8]) -> u64
    ensures { result ≡ wide_at_2 bytes.now }
{
    u64::from_le_bytes([
        byte(bytes, 2),
        byte(bytes, 3),
        byte(bytes, 4),
        byte(bytes, 5),
        byte(bytes, 6),
        byte(bytes, 7),
        byte(bytes, 8),
        byte(bytes, 9),
    ])
}

/// The displacement behind the ModRM byte at `k`.
fn displacement(bytes: &[u8], k: usize) -> i32
    requires { k < 4 }
    ensures { result ≡ displacement bytes.now k }
{
    if byte(bytes, k) % 8 == 4 {
        signed_at(bytes, k + 2)
    } else {
        signed_at(bytes, k + 1)
    }
}

fn arith_of_high(n: u8) -> ArithOp
    ensures { result ≡ arith_of_high n }
{
    if n == 5 {
        ArithOp::Sub
    } else if n == 6 {
        ArithOp::Xor
    } else {
        ArithOp::Cmp
    }
}

fn arith_of(n: u8) -> ArithOp
    ensures { result ≡ arith_of n }
{
    if n == 0 {
        ArithOp::Add
    } else if n == 1 {
        ArithOp::Or
    } else if n == 4 {
        ArithOp::And
    } else {
        arith_of_high(n)
    }
}

fn shift_of(n: u8) -> ShiftOp
    ensures { result ≡ shift_of n }
{
    if n == 4 {
        ShiftOp::Shl
    } else if n == 5 {
        ShiftOp::Shr
    } else {
        ShiftOp::Sar
    }
}

fn cond_of_signed(n: u8) -> Cond
    ensures { result ≡ cond_of_signed n }
{
    if n == 12 {
        Cond::L
    } else if n == 13 {
        Cond::GE
    } else if n == 14 {
        Cond::LE
    } else {
        Cond::G
    }
}

fn cond_of_high(n: u8) -> Cond
    ensures { result ≡ cond_of_high n }
{
    if n == 6 {
        Cond::BE
    } else if n == 7 {
        Cond::A
    } else {
        cond_of_signed(n)
    }
}

fn cond_of(n: u8) -> Cond
    ensures { result ≡ cond_of n }
{
    if n == 2 {
        Cond::B
    } else if n == 3 {
        Cond::AE
    } else if n == 4 {
        Cond::E
    } else if n == 5 {
        Cond::NE
    } else {
        cond_of_high(n)
    }
}

/// The opcodes 88 to 8F, with a register and an operand in memory or a second register.
fn guess_move(bytes: &[u8], op: u8, r: Reg, b: Reg) -> Instr
    ensures { result ≡ guess_move bytes.now op r b }
{
    if op == 0x8B {
        Instr::Load {
            dst: r,
            base: b,
            disp: displacement(bytes, 2),
        }
    } else if op == 0x8D {
        Instr::Lea {
            dst: r,
            base: b,
            disp: displacement(bytes, 2),
        }
    } else if op == 0x88 {
        Instr::StoreByte {
            base: b,
            disp: displacement(bytes, 2),
            src: r,
        }
    } else if byte(bytes, 2) / 64 == 3 {
        Instr::MovReg { dst: b, src: r }
    } else {
        Instr::Store {
            base: b,
            disp: displacement(bytes, 2),
            src: r,
        }
    }
}

/// The opcodes F7 and FF, which the register field of ModRM extends.
fn guess_unary(op: u8, extension: u8, b: Reg) -> Instr
    ensures { result ≡ guess_unary op extension b }
{
    if op == 0xF7 {
        if extension == 3 {
            Instr::Neg { dst: b }
        } else {
            Instr::Idiv { src: b }
        }
    } else if extension == 2 {
        Instr::CallReg { to: b }
    } else {
        Instr::JumpReg { to: b }
    }
}

/// The opcodes from 90 on.
fn guess_group(bytes: &[u8], op: u8, extension: u8, b: Reg) -> Instr
    ensures { result ≡ guess_group bytes.now op extension b }
{
    if op == 0x99 {
        Instr::Cqo
    } else if op == 0xC1 {
        Instr::ShiftImm {
            op: shift_of(extension),
            dst: b,
            count: byte(bytes, 3),
        }
    } else if op == 0xD3 {
        Instr::ShiftCl {
            op: shift_of(extension),
            dst: b,
        }
    } else {
        guess_unary(op, extension, b)
    }
}

/// The opcodes from 80 on.
fn guess_high(bytes: &[u8], op: u8, extension: u8, r: Reg, b: Reg) -> Instr
    ensures { result ≡ guess_high bytes.now op extension r b }
{
    if op == 0x81 {
        Instr::ArithImm {
            op: arith_of(extension),
            dst: b,
            imm: signed_at(bytes, 3),
        }
    } else if op == 0x85 {
        Instr::Test { a: b, b: r }
    } else if op < 0x90 {
        guess_move(bytes, op, r, b)
    } else {
        guess_group(bytes, op, extension, b)
    }
}

/// The opcodes of two bytes, behind 0F.
fn guess_two(bytes: &[u8], prefix: u8) -> Instr
    ensures { result ≡ guess_two bytes.now prefix }
{
    let r = Reg::from_bits(prefix / 4, byte(bytes, 3) / 8);
    let b = Reg::from_bits(prefix, byte(bytes, 3));
    if byte(bytes, 2) == 0xB6 {
        Instr::LoadByte {
            dst: r,
            base: b,
            disp: displacement(bytes, 3),
        }
    } else {
        Instr::Imul { dst: r, src: b }
    }
}

fn guess_one(bytes: &[u8], prefix: u8, op: u8) -> Instr
    ensures { result ≡ guess_one bytes.now prefix op }
{
    let r = Reg::from_bits(prefix / 4, byte(bytes, 2) / 8);
    let b = Reg::from_bits(prefix, byte(bytes, 2));
    if op / 8 == 23 {
        Instr::MovImm {
            dst: Reg::from_bits(prefix, op),
            imm: wide_at_2(bytes),
        }
    } else if op < 0x80 {
        Instr::Arith {
            op: arith_of(op / 8),
            dst: b,
            src: r,
        }
    } else {
        guess_high(bytes, op, byte(bytes, 2) / 8 % 8, r, b)
    }
}

/// Behind a REX prefix.
fn guess_rex(bytes: &[u8], prefix: u8, op: u8) -> Instr
    ensures { result ≡ guess_rex bytes.now prefix op }
{
    if op == 0x0F {
        guess_two(bytes, prefix)
    } else {
        guess_one(bytes, prefix, op)
    }
}

/// Without a REX prefix.
fn guess_plain(bytes: &[u8], op: u8) -> Instr
    ensures { result ≡ guess_plain bytes.now op }
{
    if op == 0xE9 {
        Instr::Jump {
            rel: signed_at(bytes, 1),
        }
    } else if op == 0xE8 {
        Instr::Call {
            rel: signed_at(bytes, 1),
        }
    } else if op == 0xC3 {
        Instr::Ret
    } else if byte(bytes, 1) == 5 {
        Instr::Syscall
    } else {
        Instr::JumpIf {
            cond: cond_of(byte(bytes, 1) % 16),
            rel: signed_at(bytes, 2),
        }
    }
}

/// The only row that the bytes can begin with. Whether they do is for `decode` to compare.
fn guess(bytes: &[u8]) -> Instr
    ensures { result ≡ guess bytes.now }
{
    let prefix = byte(bytes, 0);
    if prefix / 16 == 4 {
        guess_rex(bytes, prefix, byte(bytes, 1))
    } else {
        guess_plain(bytes, prefix)
    }
}

/// A shift by 64 and more has no row.
fn is_row(i: &Instr) -> bool
    ensures { result ≡ is_row i.now }
{
    match i {
        Instr::ShiftImm { count, .. } => *count < 64,
        _ => true,
    }
}

/// Whether the bytes begin with the encoding of `i`, and how many bytes that has.
fn length_at(bytes: &[u8], i: &Instr) -> Option<u8>
    ensures { result ≡ length_at bytes.now i.now }
{
    let (form, len) = form_of(i);
    let front = &form[..len as usize];
    if bytes.starts_with(front) {
        Some(len)
    } else {
        None
    }
}

fn read_row(bytes: &[u8]) -> Option<(Instr, u8)>
    ensures { result ≡ read_row bytes.now }
{
    let i = guess(bytes);
    if !is_row(&i) {
        return None;
    }
    let len = length_at(bytes, &i)?;
    Some((i, len))
}

/// The instruction that the bytes begin with, and how many bytes it has. `None` exactly where no
/// row's encoding is a prefix of the bytes. It takes no memory.
pub fn decode(bytes: &[u8]) -> Option<(Instr, u8)>
    ensures value { result ≡ decoded bytes.now }
    ensures row { IfSome result (λ r. ReadsRow bytes.now r.0 r.1) }
    ensures none { IfNone result (BeginsNoRow bytes.now) }
{
    read_row(bytes)
}
