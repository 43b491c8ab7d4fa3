ghost use Rattle.std.specs.Prelude.{◌≡◌, ◌<◌, ◌≤◌};
ghost use Rattle.x64_table.specs.Machine.{done, call, past};
ghost use Rattle.x64_table.specs.View.{state};

use crate::access::{read_8, write};
use crate::arith::is_met;
use crate::cpu::{Cpu, Stepped};
use crate::instr::{Cond, Instr};
use crate::memory::Mapped;
use crate::reg::Reg;
use crate::registers::{address, fault, get, numbered, past, set_numbered};

pub(crate) fn jump(cpu: &mut Cpu, segments: &[Mapped], n: u8, rel: i32) -> Stepped
    ensures { done (Instr.Jump rel) n (state cpu.old segments.now) ≡ (result, state cpu.new segments.now) }
{
    cpu.at = address(past(cpu, n), rel);
    Stepped::Went
}

pub(crate) fn jump_if(cpu: &mut Cpu, segments: &[Mapped], n: u8, cond: &Cond, rel: i32) -> Stepped
    ensures { done (Instr.JumpIf cond.now rel) n (state cpu.old segments.now) ≡ (result, state cpu.new segments.now) }
{
    let Some(flags) = cpu.flags else {
        return fault(cpu);
    };
    let next = past(cpu, n);
    cpu.at = if is_met(cond, &flags) {
        address(next, rel)
    } else {
        next
    };
    Stepped::Went
}

pub(crate) fn jump_reg(cpu: &mut Cpu, segments: &[Mapped], n: u8, to: Reg) -> Stepped
    ensures { done (Instr.JumpReg to) n (state cpu.old segments.now) ≡ (result, state cpu.new segments.now) }
{
    let Some(target) = get(cpu, to) else {
        return fault(cpu);
    };
    cpu.at = target;
    Stepped::Went
}

/// rsp goes down by 8, and the return address is stored there, which is inside the new open part.
fn enter(cpu: &mut Cpu, segments: &mut [Mapped], n: u8, to: u64) -> Stepped
    ensures { call (state cpu.old segments.old) n to ≡ (result, state cpu.new segments.new) }
{
    let Some(sp) = numbered(cpu, 4) else {
        return fault(cpu);
    };
    let low = sp.wrapping_sub(8);
    let mut inside = *cpu;
    set_numbered(&mut inside, 4, low);
    let next = past(cpu, n);
    if !write(&inside, segments, low, &next.to_le_bytes()) {
        return fault(cpu);
    }
    inside.at = to;
    *cpu = inside;
    Stepped::Went
}

pub(crate) fn call(cpu: &mut Cpu, segments: &mut [Mapped], n: u8, rel: i32) -> Stepped
    ensures { done (Instr.Call rel) n (state cpu.old segments.old) ≡ (result, state cpu.new segments.new) }
{
    let to = address(past(cpu, n), rel);
    enter(cpu, segments, n, to)
}

/// The target is read before the store.
pub(crate) fn call_reg(cpu: &mut Cpu, segments: &mut [Mapped], n: u8, to: Reg) -> Stepped
    ensures { done (Instr.CallReg to) n (state cpu.old segments.old) ≡ (result, state cpu.new segments.new) }
{
    let Some(target) = get(cpu, to) else {
        return fault(cpu);
    };
    enter(cpu, segments, n, target)
}

pub(crate) fn ret(cpu: &mut Cpu, segments: &[Mapped], n: u8) -> Stepped
    ensures { done Instr.Ret n (state cpu.old segments.now) ≡ (result, state cpu.new segments.now) }
{
    let Some(sp) = numbered(cpu, 4) else {
        return fault(cpu);
    };
    let Some(to) = read_8(cpu, segments, sp) else {
        return fault(cpu);
    };
    set_numbered(cpu, 4, sp.wrapping_add(8));
    cpu.at = to;
    Stepped::Went
}
