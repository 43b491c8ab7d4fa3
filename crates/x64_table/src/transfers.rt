ghost use Rattle.std.specs.Prelude.{◌≡◌, ◌<◌, ◌≤◌};
ghost use Rattle.x64_table.specs.Machine.{done};
ghost use Rattle.x64_table.specs.View.{state};

use crate::access::{read_8, readable_byte, write};
use crate::cpu::{Cpu, Stepped};
use crate::effects::advance;
use crate::instr::Instr;
use crate::memory::Mapped;
use crate::reg::Reg;
use crate::registers::{address, fault, get, set};

pub(crate) fn load(
    cpu: &mut Cpu,
    segments: &[Mapped],
    n: u8,
    dst: Reg,
    base: Reg,
    disp: i32,
) -> Stepped
    ensures { done (Instr.Load dst base disp) n (state cpu.old segments.now) ≡ (result, state cpu.new segments.now) }
{
    let Some(b) = get(cpu, base) else {
        return fault(cpu);
    };
    let Some(v) = read_8(cpu, segments, address(b, disp)) else {
        return fault(cpu);
    };
    set(cpu, dst, v);
    advance(cpu, n)
}

pub(crate) fn load_byte(
    cpu: &mut Cpu,
    segments: &[Mapped],
    n: u8,
    dst: Reg,
    base: Reg,
    disp: i32,
) -> Stepped
    ensures { done (Instr.LoadByte dst base disp) n (state cpu.old segments.now) ≡ (result, state cpu.new segments.now) }
{
    let Some(b) = get(cpu, base) else {
        return fault(cpu);
    };
    let Some(v) = readable_byte(cpu, segments, address(b, disp)) else {
        return fault(cpu);
    };
    set(cpu, dst, u64::from(v));
    advance(cpu, n)
}

pub(crate) fn store(
    cpu: &mut Cpu,
    segments: &mut [Mapped],
    n: u8,
    base: Reg,
    disp: i32,
    src: Reg,
) -> Stepped
    ensures { done (Instr.Store base disp src) n (state cpu.old segments.old) ≡ (result, state cpu.new segments.new) }
{
    let Some(b) = get(cpu, base) else {
        return fault(cpu);
    };
    let Some(v) = get(cpu, src) else {
        return fault(cpu);
    };
    if !write(cpu, segments, address(b, disp), &v.to_le_bytes()) {
        return fault(cpu);
    }
    advance(cpu, n)
}

pub(crate) fn store_byte(
    cpu: &mut Cpu,
    segments: &mut [Mapped],
    n: u8,
    base: Reg,
    disp: i32,
    src: Reg,
) -> Stepped
    ensures { done (Instr.StoreByte base disp src) n (state cpu.old segments.old) ≡ (result, state cpu.new segments.new) }
{
    let Some(b) = get(cpu, base) else {
        return fault(cpu);
    };
    let Some(v) = get(cpu, src) else {
        return fault(cpu);
    };
    if !write(cpu, segments, address(b, disp), &[(v % 256) as u8]) {
        return fault(cpu);
    }
    advance(cpu, n)
}
