//! Whole numbers of 63 bits with sign.
ghost use Rattle.std.specs.Prelude.{◌≡◌, ◌≢◌, ◌<◌, ◌≤◌, ◌^◌, pos, int_div, bit_or, bit_xor, IfSome};
ghost use Rattle.ml_meaning.specs.Arithmetic.{residue, of_residue, wrapped, shift_count, shift_left, shift_right, shift_right_signed, quotient, remainder, arithmetic};

use ml_tree::BinOp;

/// The 63 bits of a number.
fn residue(z: i128) -> u64
    ensures value { result ≡ residue z }
    ensures bound { result < 2 ^ 63 }
{
    z.rem_euclid(1 << 63) as u64
}

/// The number from -2^62 to 2^62 - 1 that has these 63 bits.
fn of_residue(bits: u64) -> i64
    requires { bits < 2 ^ 63 }
    ensures { result ≡ of_residue bits }
{
    if bits < 1 << 62 {
        bits as i64
    } else {
        -((1 << 63) - bits as i128) as i64
    }
}

/// The number from -2^62 to 2^62 - 1 that is left of a number.
pub fn wrapped(z: i128) -> i64
    ensures { result ≡ wrapped z }
{
    of_residue(residue(z))
}

/// A shift count from 0 to 62; `None` where all bits are shifted out.
fn shift_count(count: i64) -> Option<u32>
    ensures value { result ≡ shift_count count }
    ensures bound { IfSome result (λ k. k ≤ 62) }
{
    if count < 0 || count > 62 {
        return None;
    }
    Some(count as u32)
}

/// 2 to a power.
fn power(count: u32) -> i64
    requires { count ≤ 62 }
    ensures { result ≡ pos (2 ^ count) }
{
    (1u64 << count) as i64
}

fn shift_left(a: i64, count: Option<u32>) -> i64
    requires { IfSome count (λ k. k ≤ 62) }
    ensures { result ≡ shift_left a count }
{
    match count {
        None => 0,
        Some(count) => wrapped(a as i128 * power(count) as i128),
    }
}

fn shift_right(a: i64, count: Option<u32>) -> i64
    requires { IfSome count (λ k. k ≤ 62) }
    ensures { result ≡ shift_right a count }
{
    match count {
        None => 0,
        Some(count) => of_residue(residue(a as i128) >> count),
    }
}

fn shift_right_signed(a: i64, count: Option<u32>) -> i64
    requires { IfSome count (λ k. k ≤ 62) }
    ensures { result ≡ shift_right_signed a count }
{
    match count {
        None => if a < 0 { -1 } else { 0 },
        Some(count) => a.div_euclid(power(count)),
    }
}

fn divided(a: i64, b: i64) -> i64
    requires { b ≢ pos 0 }
    ensures { result ≡ wrapped (int_div a b) }
{
    wrapped(a as i128 / b as i128)
}

fn quotient(a: i64, b: i64) -> Option<i64>
    ensures { result ≡ quotient a b }
{
    if b == 0 {
        return None;
    }
    Some(divided(a, b))
}

fn remainder(a: i64, b: i64) -> Option<i64>
    ensures { result ≡ remainder a b }
{
    if b == 0 {
        return None;
    }
    Some((a as i128 % b as i128) as i64)
}

/// The bits of a combination of the bits of two numbers.
#[tactic(auto, using(crate::proofs::Numbers::or_below))]
fn or_bits(a: u64, b: u64) -> u64
    requires a { a < 2 ^ 63 }
    requires b { b < 2 ^ 63 }
    ensures value { result ≡ bit_or a b }
    ensures bound { result < 2 ^ 63 }
{
    a | b
}

#[tactic(auto, using(crate::proofs::Numbers::xor_below))]
fn xor_bits(a: u64, b: u64) -> u64
    requires a { a < 2 ^ 63 }
    requires b { b < 2 ^ 63 }
    ensures value { result ≡ bit_xor a b }
    ensures bound { result < 2 ^ 63 }
{
    a ^ b
}

/// What an operator on two numbers gives; `None` where it divides by 0.
pub fn arithmetic(op: BinOp, a: i64, b: i64) -> Option<i64>
    ensures { result ≡ arithmetic op a b }
{
    let left = a as i128;
    let right = b as i128;
    match op {
        BinOp::Add => Some(wrapped(left + right)),
        BinOp::Sub => Some(wrapped(left - right)),
        BinOp::Mul => Some(wrapped(left * right)),
        BinOp::Div => quotient(a, b),
        BinOp::Mod => remainder(a, b),
        BinOp::And => Some(of_residue(residue(left) & residue(right))),
        BinOp::Or => Some(of_residue(or_bits(residue(left), residue(right)))),
        BinOp::Xor => Some(of_residue(xor_bits(residue(left), residue(right)))),
        BinOp::Lsl => Some(shift_left(a, shift_count(b))),
        BinOp::Lsr => Some(shift_right(a, shift_count(b))),
        BinOp::Asr => Some(shift_right_signed(a, shift_count(b))),
        _ => None,
    }
}
