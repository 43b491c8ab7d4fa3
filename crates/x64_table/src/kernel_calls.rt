ghost use Rattle.std.specs.Prelude.{◌≡◌, ◌<◌, ◌≤◌};
ghost use Rattle.x64_table.specs.Machine.{done, ask, system_write, system_exit, system};
ghost use Rattle.x64_table.specs.View.{state};

use crate::access::is_range;
use crate::cpu::{Cpu, Stepped};
use crate::instr::Instr;
use crate::memory::Mapped;
use crate::registers::{fault, numbered};

/// A write of `len` bytes may be asked on channel 1 or 2 where there is at least one, and each of
/// them may be read.
fn ask(cpu: &Cpu, segments: &[Mapped], channel: u64, at: u64, len: u64) -> Stepped
    ensures { ask (state cpu.now segments.now) channel at len ≡ (result, state cpu.now segments.now) }
{
    if (channel == 1 || channel == 2) && (0 < len && is_range(cpu, segments, at, len)) {
        Stepped::Asked {
            channel: channel as u8,
            at,
            len,
        }
    } else {
        fault(cpu)
    }
}

fn system_write(cpu: &Cpu, segments: &[Mapped]) -> Stepped
    ensures { system_write (state cpu.now segments.now) ≡ (result, state cpu.now segments.now) }
{
    let Some(channel) = numbered(cpu, 7) else {
        return fault(cpu);
    };
    let Some(at) = numbered(cpu, 6) else {
        return fault(cpu);
    };
    let Some(len) = numbered(cpu, 2) else {
        return fault(cpu);
    };
    ask(cpu, segments, channel, at, len)
}

fn system_exit(cpu: &Cpu, segments: &[Mapped]) -> Stepped
    ensures { system_exit (state cpu.now segments.now) ≡ (result, state cpu.now segments.now) }
{
    let Some(status) = numbered(cpu, 7) else {
        return fault(cpu);
    };
    Stepped::Exit((status % 256) as u8)
}

/// A call of the kernel: 1 writes, 60 exits, and any other number is a fault.
pub(crate) fn syscall(cpu: &Cpu, segments: &[Mapped], n: u8) -> Stepped
    ensures { done Instr.Syscall n (state cpu.now segments.now) ≡ (result, state cpu.now segments.now) }
{
    let Some(number) = numbered(cpu, 0) else {
        return fault(cpu);
    };
    if number == 1 {
        system_write(cpu, segments)
    } else if number == 60 {
        system_exit(cpu, segments)
    } else {
        fault(cpu)
    }
}
