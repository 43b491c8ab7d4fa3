ghost use Rattle.std.specs.Prelude.{◌≡◌, ◌<◌, ◌≤◌, ◌+◌, None, Some};
ghost use Rattle.x64_table.specs.Machine.{reg, past, moved, with_reg, without_reg, with_flags, address, sign, flags_of, same, differ};
ghost use Rattle.std.specs.Int.{w64, cast_unsigned};

use crate::cpu::{Cpu, Flags, Stepped};
use crate::reg::Reg;

/// What a register holds, if it is defined.
pub(crate) fn get(cpu: &Cpu, r: Reg) -> Option<u64>
    ensures { result ≡ reg cpu.now r }
{
    cpu.regs[r.number() as usize]
}

/// The register of this number, which each call gives as a literal.
pub(crate) fn numbered(cpu: &Cpu, r: u8) -> Option<u64>
    requires { r < 16 }
    ensures { result ≡ reg cpu.now r }
{
    cpu.regs[r as usize]
}

pub(crate) fn set(cpu: &mut Cpu, r: Reg, v: u64)
    ensures { cpu.new ≡ with_reg cpu.old r v }
{
    cpu.regs[r.number() as usize] = Some(v);
}

pub(crate) fn set_numbered(cpu: &mut Cpu, r: u8, v: u64)
    requires { r < 16 }
    ensures { cpu.new ≡ with_reg cpu.old r v }
{
    cpu.regs[r as usize] = Some(v);
}

pub(crate) fn undefine(cpu: &mut Cpu, r: u8)
    requires { r < 16 }
    ensures { cpu.new ≡ without_reg cpu.old r }
{
    cpu.regs[r as usize] = None;
}

/// The position behind an instruction of `n` bytes.
pub(crate) fn past(cpu: &Cpu, n: u8) -> u64
    ensures { result ≡ past cpu.now n }
{
    cpu.at.wrapping_add(u64::from(n))
}

/// `base` and a displacement with sign.
pub(crate) fn address(base: u64, disp: i32) -> u64
    ensures { result ≡ address base disp }
{
    base.wrapping_add(i64::from(disp).cast_unsigned())
}

pub(crate) fn fault(cpu: &Cpu) -> Stepped
    ensures { result ≡ Stepped.Fault cpu.now.at }
{
    Stepped::Fault(cpu.at)
}

pub(crate) fn sign(n: u64) -> bool
    ensures { result ≡ sign n }
{
    n >= 0x8000_0000_0000_0000
}

pub(crate) fn same(a: bool, b: bool) -> bool
    ensures { result ≡ same a b }
{
    if a { b } else { !b }
}

pub(crate) fn differ(a: bool, b: bool) -> bool
    ensures { result ≡ differ a b }
{
    if a { !b } else { b }
}

/// The flags of an operation on bits.
pub(crate) fn flags_of(n: u64) -> Flags
    ensures { result ≡ flags_of n }
{
    Flags {
        cf: false,
        of: false,
        sf: sign(n),
        zf: n == 0,
    }
}
