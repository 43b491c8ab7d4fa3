ghost use Rattle.std.specs.Prelude.{◌≡◌, ◌<◌, ◌≤◌, ◌+◌, ◌-◌, ◌++◌, true, position, find, map, length, take, drop, option_map, slice_get};
ghost use Rattle.std.specs.Int.{w64, from_le_bytes};
ghost use Rattle.std.specs.Option.{option_copied};
ghost use Rattle.x64_table.specs.Machine.{holds, below, from, is_open, is_readable, is_writable, is_code, byte_in, byte_at, bytes_in, with_bytes};
ghost use Rattle.x64_table.specs.View.{loaded_of, loaded};

use crate::cpu::Cpu;
use crate::registers::numbered;

/// A segment in memory, with its zeros.
#[derive(Drop)]
pub(crate) struct Mapped {
    pub(crate) at: u64,
    pub(crate) flags: u8,
    pub(crate) bytes: Vec<u8>,
}

/// Whether one segment holds the `n` bytes from `a` on.
fn holds(m: &Mapped, a: u64, n: u64) -> bool
    ensures { result ≡ holds (loaded_of m.now) a n }
{
    let len = m.bytes.len() as u64;
    m.at <= a && n <= len && a - m.at <= len - n
}

fn below(top: Option<u64>, a: u64, n: u64) -> bool
    ensures { result ≡ below top (a + n) }
{
    match top {
        None => false,
        Some(t) => a <= t && n <= t - a,
    }
}

fn from(top: Option<u64>, a: u64) -> bool
    ensures { result ≡ from top a }
{
    match top {
        None => false,
        Some(t) => t <= a,
    }
}

/// Whether the `n` bytes from `a` on are in the open part of the segment at `at`.
fn is_open(cpu: &Cpu, at: u64, a: u64, n: u64) -> bool
    ensures { result ≡ is_open cpu.now at a n }
{
    if at == 0x1_0000_0000 {
        below(numbered(cpu, 15), a, n)
    } else if at == 0x2_0000_0000 {
        below(numbered(cpu, 14), a, n)
    } else if at == 0x3_0000_0000 {
        from(numbered(cpu, 4), a)
    } else {
        true
    }
}

fn is_readable(cpu: &Cpu, a: u64, n: u64, m: &Mapped) -> bool
    ensures { result ≡ is_readable cpu.now a n (loaded_of m.now) }
{
    holds(m, a, n) && (m.flags / 4 % 2 == 1 && is_open(cpu, m.at, a, n))
}

fn is_writable(cpu: &Cpu, a: u64, n: u64, m: &Mapped) -> bool
    ensures { result ≡ is_writable cpu.now a n (loaded_of m.now) }
{
    holds(m, a, n) && (m.flags / 2 % 2 == 1 && is_open(cpu, m.at, a, n))
}

fn is_code(a: u64, m: &Mapped) -> bool
    ensures { result ≡ is_code a (loaded_of m.now) }
{
    holds(m, a, 1) && m.flags % 2 == 1
}

fn readable_place(cpu: &Cpu, segments: &[Mapped], a: u64, n: u64) -> Option<usize>
    ensures { result ≡ position (λ m. is_readable cpu.now a n (loaded_of m)) segments.now }
{
    segments.iter().position(|m| is_readable(cpu, a, n, m))
}

pub(crate) fn writable_place(cpu: &Cpu, segments: &[Mapped], a: u64, n: u64) -> Option<usize>
    ensures { result ≡ position (λ m. is_writable cpu.now a n (loaded_of m)) segments.now }
{
    segments.iter().position(|m| is_writable(cpu, a, n, m))
}

fn code_place(segments: &[Mapped], a: u64) -> Option<usize>
    ensures { result ≡ position (λ m. is_code a (loaded_of m)) segments.now }
{
    segments.iter().position(|m| is_code(a, m))
}

fn held_place(segments: &[Mapped], a: u64) -> Option<usize>
    ensures { result ≡ position (λ m. holds (loaded_of m) a 1) segments.now }
{
    segments.iter().position(|m| holds(m, a, 1))
}

fn segment_at(segments: &[Mapped], k: usize) -> Option<&Mapped>
    ensures { option_copied result ≡ slice_get segments.now k }
{
    segments.get(k)
}

/// The first segment that holds and lets read the `n` bytes from `a` on.
pub(crate) fn readable<'a>(cpu: &Cpu, segments: &'a [Mapped], a: u64, n: u64) -> Option<&'a Mapped>
    ensures { option_map loaded_of (option_copied result) ≡ find (is_readable cpu.now a n) (loaded segments.now) }
{
    match readable_place(cpu, segments, a, n) {
        Some(k) => segment_at(segments, k),
        None => None,
    }
}

pub(crate) fn code<'a>(segments: &'a [Mapped], a: u64) -> Option<&'a Mapped>
    ensures { option_map loaded_of (option_copied result) ≡ find (is_code a) (loaded segments.now) }
{
    match code_place(segments, a) {
        Some(k) => segment_at(segments, k),
        None => None,
    }
}

pub(crate) fn held<'a>(segments: &'a [Mapped], a: u64) -> Option<&'a Mapped>
    ensures { option_map loaded_of (option_copied result) ≡ find (λ s. holds s a 1) (loaded segments.now) }
{
    match held_place(segments, a) {
        Some(k) => segment_at(segments, k),
        None => None,
    }
}

/// The byte at `a`, which the segment holds.
pub(crate) fn byte_in(m: &Mapped, a: u64) -> u8
    ensures { result ≡ byte_in a (loaded_of m.now) }
{
    let k = a.saturating_sub(m.at) as usize;
    if k < m.bytes.len() { m.bytes[k] } else { 0 }
}

/// Eight bytes as a number, the lowest first.
pub(crate) fn number(part: &[u8]) -> u64
    requires { length part.now ≡ 8 }
    ensures { result ≡ from_le_bytes w64 part.now }
{
    u64::from_le_bytes([
        part[0], part[1], part[2], part[3], part[4], part[5], part[6], part[7],
    ])
}

/// The eight bytes from `a` on, which the segment holds, as a number.
pub(crate) fn number_in(m: &Mapped, a: u64) -> u64
    requires { holds (loaded_of m.now) a 8 ≡ true }
    ensures { result ≡ from_le_bytes w64 (bytes_in a 8 (loaded_of m.now)) }
{
    let k = (a - m.at) as usize;
    number(&m.bytes[k..k + 8])
}

/// `bytes` in place of as many from `k` on.
fn write_part(whole: &mut [u8], k: usize, bytes: &[u8])
    requires { k + length bytes.now ≤ length whole.old }
    ensures { whole.new ≡ take k whole.old ++ (bytes.now ++ drop (k + length bytes.now) whole.old) }
{
    whole[k..k + bytes.len()].copy_from_slice(bytes);
}

/// `bytes` written from `a` on in the segment, which holds them all.
pub(crate) fn write_in(m: &mut Mapped, a: u64, bytes: &[u8])
    requires { holds (loaded_of m.old) a (length bytes.now) ≡ true }
    ensures { loaded_of m.new ≡ with_bytes a bytes.now (loaded_of m.old) }
{
    let k = (a - m.at) as usize;
    write_part(&mut m.bytes, k, bytes);
}
