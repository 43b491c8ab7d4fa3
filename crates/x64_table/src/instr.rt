use crate::reg::Reg;

/// The operations of the 81 group and of their forms on two registers, in the manual's order.
#[derive(Clone, Copy, Debug, PartialEq, Eq)]
pub enum ArithOp {
    Add,
    Or,
    And,
    Sub,
    Xor,
    Cmp,
}

/// To the left, to the right with zeros, and to the right with copies of the sign.
#[derive(Clone, Copy, Debug, PartialEq, Eq)]
pub enum ShiftOp {
    Shl,
    Shr,
    Sar,
}

/// The conditions of a jump. B, AE, BE and A compare without sign; L, GE, LE and G with sign.
#[derive(Clone, Copy, Debug, PartialEq, Eq)]
pub enum Cond {
    B,
    AE,
    E,
    NE,
    BE,
    A,
    L,
    GE,
    LE,
    G,
}

/// An instruction of the machine, on 64-bit registers. A memory operand is the register `base`
/// plus `disp` bytes; `rel` is counted from the next instruction.
#[derive(Clone, Copy, Debug, PartialEq, Eq)]
pub enum Instr {
    MovReg { dst: Reg, src: Reg },
    MovImm { dst: Reg, imm: u64 },
    /// Eight bytes from memory.
    Load { dst: Reg, base: Reg, disp: i32 },
    Store { base: Reg, disp: i32, src: Reg },
    /// One byte from memory, with zeros above it.
    LoadByte { dst: Reg, base: Reg, disp: i32 },
    /// The lowest byte of `src`.
    StoreByte { base: Reg, disp: i32, src: Reg },
    /// The address itself.
    Lea { dst: Reg, base: Reg, disp: i32 },
    Arith { op: ArithOp, dst: Reg, src: Reg },
    /// `imm` is extended with its sign.
    ArithImm { op: ArithOp, dst: Reg, imm: i32 },
    /// The flags of `a` and `b`, bit by bit.
    Test { a: Reg, b: Reg },
    /// The low 64 bits of the product.
    Imul { dst: Reg, src: Reg },
    /// rdx becomes 64 copies of the sign of rax.
    Cqo,
    Neg { dst: Reg },
    /// rdx:rax, with sign, by `src`: the quotient to rax and the remainder to rdx.
    Idiv { src: Reg },
    /// `count` is 0 to 63.
    ShiftImm { op: ShiftOp, dst: Reg, count: u8 },
    /// By the low 6 bits of rcx.
    ShiftCl { op: ShiftOp, dst: Reg },
    Jump { rel: i32 },
    Call { rel: i32 },
    JumpIf { cond: Cond, rel: i32 },
    CallReg { to: Reg },
    JumpReg { to: Reg },
    Ret,
    /// The number in rax, 1 to write and 60 to exit, its arguments in rdi, rsi and rdx.
    Syscall,
}
