ghost use Rattle.std.specs.Prelude.{◌≡◌, ◌≤◌, ◌<◌, ◌*◌, ◌+◌, ◌^◌, length, drop, OnSome, IfSome};
ghost use Rattle.ml_lexer.specs.Bytes.{byte};
ghost use Rattle.ml_lexer.specs.Numbers.{with_digit, digits, base_of, number, number_in, wrapped, based, decimal, small};

use crate::bytes::byte_at;

/// A value with one more digit; none where the byte is no digit of the base, or the value would
/// have more than 63 bits.
fn with_digit(base: u32, value: u64, c: u8) -> Option<u64>
    requires low { 2 ≤ base }
    requires high { base ≤ 36 }
    ensures value { result ≡ small (with_digit base value c) }
    ensures fits { IfSome result (λ v. v < 2 ^ 63) }
{
    let digit = char::from(c).to_digit(base)?;
    let value = value
        .checked_mul(u64::from(base))?
        .checked_add(u64::from(digit))?;
    if value < 1 << 63 { Some(value) } else { None }
}

/// The value of a run of digits with marks `_` between; none where a byte is no digit of the base,
/// or the value has more than 63 bits.
#[tactic(auto, unfolding(crate::specs::Numbers::digits))]
fn digits(base: u32, run: &[u8]) -> Option<u64>
    requires low { 2 ≤ base }
    requires high { base ≤ 36 }
    ensures value { result ≡ small (digits base 0 run.now) }
    ensures fits { IfSome result (λ v. v < 2 ^ 63) }
{
    let mut value = 0;
    for c in run {
        if *c != b'_' {
            value = with_digit(base, value, *c)?;
        }
    }
    Some(value)
}

#[tactic(auto, unfolding(crate::specs::Numbers::base_of))]
fn base_of(run: &[u8]) -> u32
    ensures base { result ≡ base_of run.now }
    ensures low { 2 ≤ result }
    ensures high { result ≤ 16 }
{
    if byte_at(run, 0) != 48 {
        return 10;
    }
    match byte_at(run, 1) {
        120 | 88 => 16,
        111 | 79 => 8,
        98 | 66 => 2,
        _ => 10,
    }
}

/// The 63 bits of a value as an `int`.
fn wrapped(value: u64) -> i64
    requires { value < 2 ^ 63 }
    ensures { result ≡ wrapped value }
{
    if value < 1 << 62 {
        value as i64
    } else {
        value as i64 + i64::MIN
    }
}

/// The value of a number with a prefix for its base.
#[tactic(auto, unfolding(crate::specs::Bytes::byte))]
fn based(base: u32, run: &[u8]) -> Option<i64>
    requires low { 2 ≤ base }
    requires high { base ≤ 36 }
    ensures { result ≡ based base run.now }
{
    let first = *run.get(2)?;
    let _digit = char::from(first).to_digit(base)?;
    let value = digits(base, &run[2..])?;
    Some(wrapped(value))
}

/// A decimal value as an `int`: 2^62 stands only behind a minus, which it takes in.
fn decimal(after_minus: bool, value: u64) -> Option<i64>
    ensures { result ≡ decimal after_minus value }
{
    if value < 1 << 62 {
        Some(value as i64)
    } else if after_minus && value == 1 << 62 {
        Some(-(1 << 62))
    } else {
        None
    }
}

/// The value of a number literal, if the run is one.
#[tactic(auto, unfolding(crate::specs::Numbers::number))]
pub fn number(after_minus: bool, run: &[u8]) -> Option<i64>
    ensures { result ≡ number after_minus run.now }
{
    let base = base_of(run);
    if base == 10 {
        let value = digits(10, run)?;
        return decimal(after_minus, value);
    }
    based(base, run)
}
