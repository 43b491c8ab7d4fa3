ghost use Rattle.std.specs.Prelude.{◌≡◌, ◌<◌, ◌≤◌, ◌+◌, ◌*◌, ◌∷◌, [], ◌^◌, true, FitsSigned};
ghost use Rattle.x64_table.specs.Encoding.{encoding, IsRow, is_row, padded, memory, rex_w, rex_n, direct, signed_4, arith_number, shift_number, cond_number};
ghost use Rattle.std.specs.Int.{w32, w64, to_le_bytes};

use crate::instr::{ArithOp, Cond, Instr, ShiftOp};
use crate::reg::Reg;

/// The bytes of a row with zeros behind them, and how many bytes it has.
pub type Form = ([u8; 15], u8);

/// The REX prefix with W, for the register field and the base or second register.
fn rex_w(r: Reg, b: Reg) -> u8
    ensures byte { result ≡ rex_w r b }
    ensures r_within { r < 16 }
    ensures b_within { b < 16 }
{
    0x48 + (4 * (r.number() / 8) + b.number() / 8)
}

/// The REX prefix without W.
fn rex_n(r: Reg, b: Reg) -> u8
    ensures byte { result ≡ rex_n r b }
    ensures r_within { r < 16 }
    ensures b_within { b < 16 }
{
    0x40 + (4 * (r.number() / 8) + b.number() / 8)
}

/// The REX prefix with W, where the opcode is extended or holds the register.
fn rex_alone(b: Reg) -> u8
    ensures byte { result ≡ rex_w 0 b }
    ensures within { b < 16 }
{
    0x48 + b.number() / 8
}

fn rex_n_alone(b: Reg) -> u8
    ensures byte { result ≡ rex_n 0 b }
    ensures within { b < 16 }
{
    0x40 + b.number() / 8
}

/// ModRM of two registers.
fn direct(r: Reg, b: Reg) -> u8
    ensures { result ≡ direct r b }
{
    0xC0 + (8 * (r.number() % 8) + b.number() % 8)
}

/// ModRM of an extension of the opcode and a register.
fn extended(k: u8, b: Reg) -> u8
    requires { k < 8 }
    ensures { result ≡ direct k b }
{
    0xC0 + (8 * (k % 8) + b.number() % 8)
}

fn arith_number(op: &ArithOp) -> u8
    ensures number { result ≡ arith_number op.now }
    ensures below { result < 8 }
{
    match op {
        ArithOp::Add => 0,
        ArithOp::Or => 1,
        ArithOp::And => 4,
        ArithOp::Sub => 5,
        ArithOp::Xor => 6,
        ArithOp::Cmp => 7,
    }
}

fn shift_number(op: &ShiftOp) -> u8
    ensures number { result ≡ shift_number op.now }
    ensures below { result < 8 }
{
    match op {
        ShiftOp::Shl => 4,
        ShiftOp::Shr => 5,
        ShiftOp::Sar => 7,
    }
}

fn cond_number(cond: &Cond) -> u8
    ensures number { result ≡ cond_number cond.now }
    ensures below { result < 16 }
{
    match cond {
        Cond::B => 2,
        Cond::AE => 3,
        Cond::E => 4,
        Cond::NE => 5,
        Cond::BE => 6,
        Cond::A => 7,
        Cond::L => 12,
        Cond::GE => 13,
        Cond::LE => 14,
        Cond::G => 15,
    }
}

fn of_two(a: u8, b: u8) -> Form
    ensures { result ≡ padded (a ∷ b ∷ []) }
{
    ([a, b, 0, 0, 0, 0, 0, 0, 0, 0, 0, 0, 0, 0, 0], 2)
}

fn of_three(a: u8, b: u8, c: u8) -> Form
    ensures { result ≡ padded (a ∷ b ∷ c ∷ []) }
{
    ([a, b, c, 0, 0, 0, 0, 0, 0, 0, 0, 0, 0, 0, 0], 3)
}

fn of_four(a: u8, b: u8, c: u8, d: u8) -> Form
    ensures { result ≡ padded (a ∷ b ∷ c ∷ d ∷ []) }
{
    ([a, b, c, d, 0, 0, 0, 0, 0, 0, 0, 0, 0, 0, 0], 4)
}

/// An opcode of one byte and four bytes with sign.
fn relative(a: u8, z: i32) -> Form
    ensures form { result ≡ padded (a ∷ signed_4 z) }
    ensures fits { FitsSigned w32 z }
{
    let d = z.to_le_bytes();
    ([a, d[0], d[1], d[2], d[3], 0, 0, 0, 0, 0, 0, 0, 0, 0, 0], 5)
}

fn relative_if(a: u8, b: u8, z: i32) -> Form
    ensures form { result ≡ padded (a ∷ b ∷ signed_4 z) }
    ensures fits { FitsSigned w32 z }
{
    let d = z.to_le_bytes();
    ([a, b, d[0], d[1], d[2], d[3], 0, 0, 0, 0, 0, 0, 0, 0, 0], 6)
}

fn immediate(a: u8, b: u8, c: u8, z: i32) -> Form
    ensures form { result ≡ padded (a ∷ b ∷ c ∷ signed_4 z) }
    ensures fits { FitsSigned w32 z }
{
    let d = z.to_le_bytes();
    ([a, b, c, d[0], d[1], d[2], d[3], 0, 0, 0, 0, 0, 0, 0, 0], 7)
}

/// A prefix, an opcode and eight bytes.
fn wide(a: u8, b: u8, imm: u64) -> Form
    ensures form { result ≡ padded (a ∷ b ∷ to_le_bytes w64 imm) }
    ensures fits { imm < 2 ^ 64 }
{
    let d = imm.to_le_bytes();
    (
        [
            a, b, d[0], d[1], d[2], d[3], d[4], d[5], d[6], d[7], 0, 0, 0, 0, 0,
        ],
        10,
    )
}

/// An operand in memory: behind the opcode come ModRM, the SIB byte where the base's low bits are
/// those of rsp, and the displacement.
fn in_memory(a: u8, b: u8, r: Reg, base: Reg, disp: i32) -> Form
    ensures form { result ≡ padded (a ∷ b ∷ memory r base disp) }
    ensures fits { FitsSigned w32 disp }
{
    let d = disp.to_le_bytes();
    let m = 0x80 + (8 * (r.number() % 8) + base.number() % 8);
    if base.number() % 8 == 4 {
        (
            [a, b, m, 0x24, d[0], d[1], d[2], d[3], 0, 0, 0, 0, 0, 0, 0],
            8,
        )
    } else {
        ([a, b, m, d[0], d[1], d[2], d[3], 0, 0, 0, 0, 0, 0, 0, 0], 7)
    }
}

/// The same behind an opcode of two bytes.
fn in_memory_two(a: u8, b: u8, c: u8, r: Reg, base: Reg, disp: i32) -> Form
    ensures form { result ≡ padded (a ∷ b ∷ c ∷ memory r base disp) }
    ensures fits { FitsSigned w32 disp }
{
    let d = disp.to_le_bytes();
    let m = 0x80 + (8 * (r.number() % 8) + base.number() % 8);
    if base.number() % 8 == 4 {
        (
            [a, b, c, m, 0x24, d[0], d[1], d[2], d[3], 0, 0, 0, 0, 0, 0],
            9,
        )
    } else {
        ([a, b, c, m, d[0], d[1], d[2], d[3], 0, 0, 0, 0, 0, 0, 0], 8)
    }
}

/// The bytes of an instruction, by its row. It takes no memory.
pub fn form_of(i: &Instr) -> Form
    ensures form { result ≡ padded (encoding i.now) }
    ensures row { is_row i.now ≡ true → IsRow i.now }
{
    match i {
        Instr::MovReg { dst, src } => of_three(rex_w(*src, *dst), 0x89, direct(*src, *dst)),
        Instr::MovImm { dst, imm } => wide(rex_alone(*dst), 0xB8 + dst.number() % 8, *imm),
        Instr::Load { dst, base, disp } => in_memory(rex_w(*dst, *base), 0x8B, *dst, *base, *disp),
        Instr::Store { base, disp, src } => in_memory(rex_w(*src, *base), 0x89, *src, *base, *disp),
        Instr::LoadByte { dst, base, disp } => {
            in_memory_two(rex_w(*dst, *base), 0x0F, 0xB6, *dst, *base, *disp)
        }
        Instr::StoreByte { base, disp, src } => {
            in_memory(rex_n(*src, *base), 0x88, *src, *base, *disp)
        }
        Instr::Lea { dst, base, disp } => in_memory(rex_w(*dst, *base), 0x8D, *dst, *base, *disp),
        Instr::Arith { op, dst, src } => {
            of_three(
                rex_w(*src, *dst),
                8 * arith_number(op) + 1,
                direct(*src, *dst),
            )
        }
        Instr::ArithImm { op, dst, imm } => {
            immediate(
                rex_alone(*dst),
                0x81,
                extended(arith_number(op), *dst),
                *imm,
            )
        }
        Instr::Test { a, b } => of_three(rex_w(*b, *a), 0x85, direct(*b, *a)),
        Instr::Imul { dst, src } => of_four(rex_w(*dst, *src), 0x0F, 0xAF, direct(*dst, *src)),
        Instr::Cqo => of_two(0x48, 0x99),
        Instr::Neg { dst } => of_three(rex_alone(*dst), 0xF7, extended(3, *dst)),
        Instr::Idiv { src } => of_three(rex_alone(*src), 0xF7, extended(7, *src)),
        Instr::ShiftImm { op, dst, count } => {
            of_four(
                rex_alone(*dst),
                0xC1,
                extended(shift_number(op), *dst),
                *count,
            )
        }
        Instr::ShiftCl { op, dst } => {
            of_three(rex_alone(*dst), 0xD3, extended(shift_number(op), *dst))
        }
        Instr::Jump { rel } => relative(0xE9, *rel),
        Instr::Call { rel } => relative(0xE8, *rel),
        Instr::JumpIf { cond, rel } => relative_if(0x0F, 0x80 + cond_number(cond), *rel),
        Instr::CallReg { to } => of_three(rex_n_alone(*to), 0xFF, extended(2, *to)),
        Instr::JumpReg { to } => of_three(rex_n_alone(*to), 0xFF, extended(4, *to)),
        Instr::Ret => ([0xC3, 0, 0, 0, 0, 0, 0, 0, 0, 0, 0, 0, 0, 0, 0], 1),
        Instr::Syscall => of_two(0x0F, 0x05),
    }
}
