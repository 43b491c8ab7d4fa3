ghost use Rattle.std.specs.Prelude.{◌≡◌, ◌<◌, ◌≤◌, Some, None, if◌then◌else◌};
ghost use Rattle.std.specs.Int.{w64, cast_unsigned};
ghost use Rattle.x64_table.specs.Machine.{done, with_reg, with_flags, moved, past, keeps_result, arith_value, arith_flags};
ghost use Rattle.x64_table.specs.View.{state};

use crate::arith::{arith_flags, arith_value, divided, keeps_result, shifted};
use crate::cpu::{Cpu, Stepped};
use crate::instr::{ArithOp, Instr, ShiftOp};
use crate::memory::Mapped;
use crate::reg::Reg;
use crate::registers::{address, fault, flags_of, get, numbered, past, set, set_numbered, sign};

/// The processor goes on behind an instruction of `n` bytes.
pub(crate) fn advance(cpu: &mut Cpu, n: u8) -> Stepped
    ensures went { result ≡ Stepped.Went }
    ensures after { cpu.new ≡ moved cpu.old (past cpu.old n) }
{
    cpu.at = past(cpu, n);
    Stepped::Went
}

/// A register gets a value, and the flags become undefined.
fn put_unflagged(cpu: &mut Cpu, n: u8, dst: Reg, v: u64) -> Stepped
    ensures went { result ≡ Stepped.Went }
    ensures after { cpu.new ≡ moved (with_flags (with_reg cpu.old dst v) None) (past cpu.old n) }
{
    set(cpu, dst, v);
    cpu.flags = None;
    advance(cpu, n)
}

pub(crate) fn move_reg(cpu: &mut Cpu, segments: &[Mapped], n: u8, dst: Reg, src: Reg) -> Stepped
    ensures { done (Instr.MovReg dst src) n (state cpu.old segments.now) ≡ (result, state cpu.new segments.now) }
{
    let Some(v) = get(cpu, src) else {
        return fault(cpu);
    };
    set(cpu, dst, v);
    advance(cpu, n)
}

pub(crate) fn move_imm(cpu: &mut Cpu, segments: &[Mapped], n: u8, dst: Reg, imm: u64) -> Stepped
    ensures { done (Instr.MovImm dst imm) n (state cpu.old segments.now) ≡ (result, state cpu.new segments.now) }
{
    set(cpu, dst, imm);
    advance(cpu, n)
}

pub(crate) fn lea(
    cpu: &mut Cpu,
    segments: &[Mapped],
    n: u8,
    dst: Reg,
    base: Reg,
    disp: i32,
) -> Stepped
    ensures { done (Instr.Lea dst base disp) n (state cpu.old segments.now) ≡ (result, state cpu.new segments.now) }
{
    let Some(b) = get(cpu, base) else {
        return fault(cpu);
    };
    set(cpu, dst, address(b, disp));
    advance(cpu, n)
}

/// An operation on two values, the first of a register that keeps the result.
fn operate(cpu: &mut Cpu, n: u8, op: &ArithOp, dst: Reg, x: u64, y: u64) -> Stepped
    ensures went { result ≡ Stepped.Went }
    ensures after { cpu.new ≡ moved (with_flags (if keeps_result op.now then with_reg cpu.old dst (arith_value op.now x y) else cpu.old) (Some (arith_flags op.now x y))) (past cpu.old n) }
{
    if keeps_result(op) {
        set(cpu, dst, arith_value(op, x, y));
    }
    cpu.flags = Some(arith_flags(op, x, y));
    advance(cpu, n)
}

pub(crate) fn arith(
    cpu: &mut Cpu,
    segments: &[Mapped],
    n: u8,
    op: &ArithOp,
    dst: Reg,
    src: Reg,
) -> Stepped
    ensures { done (Instr.Arith op.now dst src) n (state cpu.old segments.now) ≡ (result, state cpu.new segments.now) }
{
    let Some(x) = get(cpu, dst) else {
        return fault(cpu);
    };
    let Some(y) = get(cpu, src) else {
        return fault(cpu);
    };
    operate(cpu, n, op, dst, x, y)
}

pub(crate) fn arith_imm(
    cpu: &mut Cpu,
    segments: &[Mapped],
    n: u8,
    op: &ArithOp,
    dst: Reg,
    imm: i32,
) -> Stepped
    ensures { done (Instr.ArithImm op.now dst imm) n (state cpu.old segments.now) ≡ (result, state cpu.new segments.now) }
{
    let Some(x) = get(cpu, dst) else {
        return fault(cpu);
    };
    operate(cpu, n, op, dst, x, extended(imm))
}

/// An immediate with copies of its sign above it.
fn extended(imm: i32) -> u64
    ensures { result ≡ cast_unsigned w64 imm }
{
    i64::from(imm).cast_unsigned()
}

pub(crate) fn test(cpu: &mut Cpu, segments: &[Mapped], n: u8, a: Reg, b: Reg) -> Stepped
    ensures { done (Instr.Test a b) n (state cpu.old segments.now) ≡ (result, state cpu.new segments.now) }
{
    let Some(x) = get(cpu, a) else {
        return fault(cpu);
    };
    let Some(y) = get(cpu, b) else {
        return fault(cpu);
    };
    cpu.flags = Some(flags_of(x & y));
    advance(cpu, n)
}

pub(crate) fn imul(cpu: &mut Cpu, segments: &[Mapped], n: u8, dst: Reg, src: Reg) -> Stepped
    ensures { done (Instr.Imul dst src) n (state cpu.old segments.now) ≡ (result, state cpu.new segments.now) }
{
    let Some(x) = get(cpu, dst) else {
        return fault(cpu);
    };
    let Some(y) = get(cpu, src) else {
        return fault(cpu);
    };
    put_unflagged(cpu, n, dst, x.wrapping_mul(y))
}

pub(crate) fn cqo(cpu: &mut Cpu, segments: &[Mapped], n: u8) -> Stepped
    ensures { done (Instr.Cqo) n (state cpu.old segments.now) ≡ (result, state cpu.new segments.now) }
{
    let Some(v) = numbered(cpu, 0) else {
        return fault(cpu);
    };
    set_numbered(cpu, 2, if sign(v) { u64::MAX } else { 0 });
    advance(cpu, n)
}

pub(crate) fn neg(cpu: &mut Cpu, segments: &[Mapped], n: u8, dst: Reg) -> Stepped
    ensures { done (Instr.Neg dst) n (state cpu.old segments.now) ≡ (result, state cpu.new segments.now) }
{
    let Some(v) = get(cpu, dst) else {
        return fault(cpu);
    };
    put_unflagged(cpu, n, dst, 0u64.wrapping_sub(v))
}

pub(crate) fn idiv(cpu: &mut Cpu, segments: &[Mapped], n: u8, src: Reg) -> Stepped
    ensures { done (Instr.Idiv src) n (state cpu.old segments.now) ≡ (result, state cpu.new segments.now) }
{
    let Some(high) = numbered(cpu, 2) else {
        return fault(cpu);
    };
    let Some(low) = numbered(cpu, 0) else {
        return fault(cpu);
    };
    let Some(by) = get(cpu, src) else {
        return fault(cpu);
    };
    let Some((quotient, remainder)) = divided(high, low, by) else {
        return fault(cpu);
    };
    set_numbered(cpu, 0, quotient);
    set_numbered(cpu, 2, remainder);
    cpu.flags = None;
    advance(cpu, n)
}

/// A shift whose count is below 64.
pub(crate) fn shift_imm(
    cpu: &mut Cpu,
    segments: &[Mapped],
    n: u8,
    op: &ShiftOp,
    dst: Reg,
    count: u8,
) -> Stepped
    requires { count < 64 }
    ensures { done (Instr.ShiftImm op.now dst count) n (state cpu.old segments.now) ≡ (result, state cpu.new segments.now) }
{
    let Some(v) = get(cpu, dst) else {
        return fault(cpu);
    };
    put_unflagged(cpu, n, dst, shifted(op, v, count))
}

pub(crate) fn shift_cl(cpu: &mut Cpu, segments: &[Mapped], n: u8, op: &ShiftOp, dst: Reg) -> Stepped
    ensures { done (Instr.ShiftCl op.now dst) n (state cpu.old segments.now) ≡ (result, state cpu.new segments.now) }
{
    let Some(count) = numbered(cpu, 1) else {
        return fault(cpu);
    };
    let Some(v) = get(cpu, dst) else {
        return fault(cpu);
    };
    put_unflagged(cpu, n, dst, shifted(op, v, (count % 64) as u8))
}
