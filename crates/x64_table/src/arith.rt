ghost use Rattle.std.specs.Prelude.{◌≡◌, ◌<◌, ◌≤◌, ◌+◌, ◌*◌, ◌^◌, ◌%◌};
ghost use Rattle.x64_table.specs.Machine.{sum_64, difference_64, sum_flags, difference_flags, arith_value, arith_flags, keeps_result, shifted, is_met, divided, fitting};
ghost use Rattle.std.specs.Int.{w64, w128, cast_signed};

use crate::cpu::Flags;
use crate::instr::{ArithOp, Cond, ShiftOp};
use crate::registers::{differ, flags_of, same, sign};

fn sum_flags(x: u64, y: u64) -> Flags
    ensures { result ≡ sum_flags x y }
{
    let sum = x.wrapping_add(y);
    Flags {
        cf: y > u64::MAX - x,
        of: same(sign(x), sign(y)) && differ(sign(x), sign(sum)),
        sf: sign(sum),
        zf: sum == 0,
    }
}

fn difference_flags(x: u64, y: u64) -> Flags
    ensures { result ≡ difference_flags x y }
{
    let difference = x.wrapping_sub(y);
    Flags {
        cf: x < y,
        of: differ(sign(x), sign(y)) && differ(sign(x), sign(difference)),
        sf: sign(difference),
        zf: difference == 0,
    }
}

pub(crate) fn arith_value(op: &ArithOp, x: u64, y: u64) -> u64
    ensures { result ≡ arith_value op.now x y }
{
    match op {
        ArithOp::Add => x.wrapping_add(y),
        ArithOp::Or => x | y,
        ArithOp::And => x & y,
        ArithOp::Sub => x.wrapping_sub(y),
        ArithOp::Xor => x ^ y,
        ArithOp::Cmp => x.wrapping_sub(y),
    }
}

pub(crate) fn arith_flags(op: &ArithOp, x: u64, y: u64) -> Flags
    ensures { result ≡ arith_flags op.now x y }
{
    match op {
        ArithOp::Add => sum_flags(x, y),
        ArithOp::Or => flags_of(x | y),
        ArithOp::And => flags_of(x & y),
        ArithOp::Sub => difference_flags(x, y),
        ArithOp::Xor => flags_of(x ^ y),
        ArithOp::Cmp => difference_flags(x, y),
    }
}

pub(crate) fn keeps_result(op: &ArithOp) -> bool
    ensures { result ≡ keeps_result op.now }
{
    match op {
        ArithOp::Cmp => false,
        _ => true,
    }
}

/// A shift by fewer than 64.
pub(crate) fn shifted(op: &ShiftOp, x: u64, k: u8) -> u64
    requires { k < 64 }
    ensures { result ≡ shifted op.now x k }
{
    match op {
        ShiftOp::Shl => x << k,
        ShiftOp::Shr => x >> k,
        ShiftOp::Sar => (x.cast_signed() >> k).cast_unsigned(),
    }
}

pub(crate) fn is_met(cond: &Cond, f: &Flags) -> bool
    ensures { result ≡ is_met cond.now f.now }
{
    match cond {
        Cond::B => f.cf,
        Cond::AE => !f.cf,
        Cond::E => f.zf,
        Cond::NE => !f.zf,
        Cond::BE => f.cf || f.zf,
        Cond::A => !(f.cf || f.zf),
        Cond::L => differ(f.sf, f.of),
        Cond::GE => same(f.sf, f.of),
        Cond::LE => f.zf || differ(f.sf, f.of),
        Cond::G => !(f.zf || differ(f.sf, f.of)),
    }
}

/// The 128 bits of two words, with sign.
fn joined(high: u64, low: u64) -> i128
    ensures { result ≡ cast_signed w128 (high * 2 ^ 64 + low) }
{
    (u128::from(high) * 0x1_0000_0000_0000_0000 + u128::from(low)).cast_signed()
}

/// The quotient, if it fits 64 bits with sign, and the remainder.
fn fitting(quotient: i128, remainder: i64) -> Option<(u64, u64)>
    ensures { result ≡ fitting quotient remainder }
{
    match i64::try_from(quotient) {
        Ok(q) => Some((q.cast_unsigned(), remainder.cast_unsigned())),
        Err(_) => None,
    }
}

/// The quotient and the remainder of `high`:`low` by `by`, all with sign; `None` where `by` is zero
/// or the quotient does not fit.
pub(crate) fn divided(high: u64, low: u64, by: u64) -> Option<(u64, u64)>
    ensures { result ≡ divided high low by }
{
    if by == 0 {
        return None;
    }
    let a = joined(high, low);
    let d = i128::from(by.cast_signed());
    let quotient = a.checked_div(d)?;
    let remainder = a.wrapping_rem(d) as i64;
    fitting(quotient, remainder)
}
