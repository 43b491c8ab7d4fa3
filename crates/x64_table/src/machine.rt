ghost use Rattle.std.specs.Prelude.{◌≡◌, ◌<◌, ◌≤◌, true, IfOk, map};
ghost use Rattle.x64_table.specs.Encoding.{is_row};
ghost use Rattle.x64_table.specs.Machine.{done, step_of, answered, byte_at, begun, in_memory, fresh_cpu};
ghost use Rattle.x64_table.specs.View.{state, loaded, loaded_of};

use crate::cpu::{Cpu, Stepped};
use crate::fetching::fetch;
use crate::image::{Image, Segment};
use crate::instr::Instr;
use crate::memory::Mapped;
use crate::registers::{fault, past, set_numbered, undefine};
use crate::{access, control, effects, kernel_calls, transfers};
use oxml_base::NoMemory;
use std::alloc::Global;
use std::marker::Model;

/// A machine in some state. Contracts see it as that state: the processor, and the segments with
/// their bytes.
#[derive(Drop)]
pub struct Machine {
    cpu: Cpu,
    segments: Vec<Mapped>,
}

impl Model for Machine {
    ghost use Rattle.x64_table.specs.Machine.{State};
    ghost use Rattle.x64_table.specs.View.{state};

    ghost Value = { State };

    ghost view = { λ m. state m.cpu m.segments.items };
}

/// A segment with its zeros.
#[tactic(auto, unfolding(crate::specs::Machine::zeros))]
fn in_memory(alloc: Global, s: &Segment) -> Result<Mapped, NoMemory>
    ensures { IfOk result (λ m. loaded_of m ≡ in_memory s.now) }
{
    let size = s.size as usize;
    let mut bytes = Vec::with_capacity(alloc, size)?;
    bytes.extend_from_slice(s.bytes.as_slice())?;
    bytes.resize(size, 0)?;
    Ok(Mapped {
        at: s.at,
        flags: s.flags,
        bytes,
    })
}

fn all_in_memory(alloc: Global, segments: &[Segment]) -> Result<Vec<Mapped>, NoMemory>
    ensures { IfOk result (λ v. loaded v.items ≡ map in_memory segments.now) }
{
    let mut all = Vec::new(alloc);
    for s in segments {
        all.push(in_memory(alloc, s)?)?;
    }
    Ok(all)
}

/// What an instruction of `n` bytes does.
fn do_row(i: &Instr, n: u8, cpu: &mut Cpu, segments: &mut [Mapped]) -> Stepped
    requires { is_row i.now ≡ true }
    ensures { done i.now n (state cpu.old segments.old) ≡ (result, state cpu.new segments.new) }
{
    match i {
        Instr::MovReg { dst, src } => effects::move_reg(cpu, segments, n, *dst, *src),
        Instr::MovImm { dst, imm } => effects::move_imm(cpu, segments, n, *dst, *imm),
        Instr::Load { dst, base, disp } => transfers::load(cpu, segments, n, *dst, *base, *disp),
        Instr::Store { base, disp, src } => transfers::store(cpu, segments, n, *base, *disp, *src),
        Instr::LoadByte { dst, base, disp } => {
            transfers::load_byte(cpu, segments, n, *dst, *base, *disp)
        }
        Instr::StoreByte { base, disp, src } => {
            transfers::store_byte(cpu, segments, n, *base, *disp, *src)
        }
        Instr::Lea { dst, base, disp } => effects::lea(cpu, segments, n, *dst, *base, *disp),
        Instr::Arith { op, dst, src } => effects::arith(cpu, segments, n, op, *dst, *src),
        Instr::ArithImm { op, dst, imm } => effects::arith_imm(cpu, segments, n, op, *dst, *imm),
        Instr::Test { a, b } => effects::test(cpu, segments, n, *a, *b),
        Instr::Imul { dst, src } => effects::imul(cpu, segments, n, *dst, *src),
        Instr::Cqo => effects::cqo(cpu, segments, n),
        Instr::Neg { dst } => effects::neg(cpu, segments, n, *dst),
        Instr::Idiv { src } => effects::idiv(cpu, segments, n, *src),
        Instr::ShiftImm { op, dst, count } => {
            effects::shift_imm(cpu, segments, n, op, *dst, *count)
        }
        Instr::ShiftCl { op, dst } => effects::shift_cl(cpu, segments, n, op, *dst),
        Instr::Jump { rel } => control::jump(cpu, segments, n, *rel),
        Instr::Call { rel } => control::call(cpu, segments, n, *rel),
        Instr::JumpIf { cond, rel } => control::jump_if(cpu, segments, n, cond, *rel),
        Instr::CallReg { to } => control::call_reg(cpu, segments, n, *to),
        Instr::JumpReg { to } => control::jump_reg(cpu, segments, n, *to),
        Instr::Ret => control::ret(cpu, segments, n),
        Instr::Syscall => kernel_calls::syscall(cpu, segments, n),
    }
}

impl Machine {
    /// The machine in the state that the program of an image begins in: all registers and flags
    /// undefined, the position at the entry, each segment filled up with zeros to its size. It
    /// takes all the memory that the machine will ever need.
    pub fn new(alloc: Global, image: &Image) -> Result<Machine, NoMemory>
        ensures { IfOk result (λ m. m ≡ begun image.now) }
    {
        let segments = all_in_memory(alloc, image.segments.as_slice())?;
        let cpu = Cpu {
            regs: [None; 16],
            flags: None,
            at: image.entry,
        };
        Ok(Machine { cpu, segments })
    }

    /// Does the instruction at the position. It takes no memory. Where it asks for a write, the
    /// state waits for `answer`; after `Exit` and `Fault` the state is as it was.
    #[tactic(auto, unfolding(crate::specs::Machine::step_of))]
    pub fn step(&mut self) -> Stepped
        ensures { step_of self.old ≡ (result, self.new) }
    {
        match fetch(&self.segments, self.cpu.at) {
            Some((i, n)) => do_row(&i, n, &mut self.cpu, &mut self.segments),
            None => fault(&self.cpu),
        }
    }

    /// Gives the kernel's answer to the write that the last step asked for, and goes on behind
    /// it. Which bytes were written is for the caller to take by `byte`. It takes no memory.
    pub fn answer(&mut self, n: i64)
        ensures { self.new ≡ answered self.old n }
    {
        self.cpu.at = past(&self.cpu, 2);
        set_numbered(&mut self.cpu, 0, n.cast_unsigned());
        undefine(&mut self.cpu, 1);
        undefine(&mut self.cpu, 11);
        self.cpu.flags = None;
    }

    /// The byte at a place; `None` exactly where no segment holds it. It takes no memory.
    pub fn byte(&self, at: u64) -> Option<u8>
        ensures { result ≡ byte_at self.now.segments at }
    {
        access::byte_at(&self.segments, at)
    }
}
