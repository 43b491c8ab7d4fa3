ghost use Rattle.std.specs.Prelude.{◌≡◌, ◌<◌, ◌≤◌, ◌+◌, ◌-◌, true, false, Some, None, find, length, option_map, if◌then◌else◌};
ghost use Rattle.std.specs.Int.{w64, from_le_bytes};
ghost use Rattle.x64_table.specs.Machine.{is_readable, readable_byte, each_byte, each_place, has_readable, has_writable, stored, stored_each, write_each, written, read_8, read_1, is_range, byte_at};
ghost use Rattle.x64_table.specs.View.{loaded_of, loaded, state};

use crate::cpu::Cpu;
use crate::memory::{Mapped, byte_in, held, number, number_in, readable, writable_place, write_in};

/// The byte at `a`, if it may be read.
pub(crate) fn readable_byte(cpu: &Cpu, segments: &[Mapped], a: u64) -> Option<u8>
    ensures { result ≡ readable_byte (state cpu.now segments.now) a }
{
    match readable(cpu, segments, a, 1) {
        Some(m) => Some(byte_in(m, a)),
        None => None,
    }
}

/// Eight bytes from `a` on, byte by byte.
#[tactic(auto, using(crate::proofs::Bytewise::byte_zero, crate::proofs::Bytewise::byte_more, crate::proofs::Bytewise::byte_stays))]
fn read_each(cpu: &Cpu, segments: &[Mapped], a: u64) -> Option<u64>
    ensures { result ≡ option_map (from_le_bytes w64) (each_byte (readable_byte (state cpu.now segments.now)) 8 a) }
{
    let mut part = [0u8; 8];
    for i in 0..8 {
        let Some(b) = readable_byte(cpu, segments, a.wrapping_add(i as u64)) else {
            return None;
        };
        part[i] = b;
    }
    Some(number(&part))
}

/// The eight bytes from `a` on as a number, if they may be read.
pub(crate) fn read_8(cpu: &Cpu, segments: &[Mapped], a: u64) -> Option<u64>
    ensures { result ≡ read_8 (state cpu.now segments.now) a }
{
    match readable(cpu, segments, a, 8) {
        Some(m) => Some(number_in(m, a)),
        None => read_each(cpu, segments, a),
    }
}

pub(crate) fn has_readable(cpu: &Cpu, segments: &[Mapped], n: u64, a: u64) -> bool
    ensures { result ≡ has_readable cpu.now (loaded segments.now) n a }
{
    match readable(cpu, segments, a, n) {
        Some(_) => true,
        None => false,
    }
}

fn has_writable(cpu: &Cpu, segments: &[Mapped], n: u64, a: u64) -> bool
    ensures { result ≡ has_writable cpu.now (loaded segments.now) n a }
{
    match writable_place(cpu, segments, a, n) {
        Some(_) => true,
        None => false,
    }
}

#[tactic(auto, using(crate::proofs::Bytewise::place_zero, crate::proofs::Bytewise::place_more, crate::proofs::Bytewise::place_stays))]
fn all_readable(cpu: &Cpu, segments: &[Mapped], n: u64, a: u64) -> bool
    ensures { result ≡ each_place (has_readable cpu.now (loaded segments.now) 1) n a }
{
    for i in 0..n {
        if !has_readable(cpu, segments, 1, a.wrapping_add(i)) {
            return false;
        }
    }
    true
}

#[tactic(auto, using(crate::proofs::Bytewise::place_zero, crate::proofs::Bytewise::place_more, crate::proofs::Bytewise::place_stays))]
fn all_writable(cpu: &Cpu, segments: &[Mapped], n: u64, a: u64) -> bool
    ensures { result ≡ each_place (has_writable cpu.now (loaded segments.now) 1) n a }
{
    for i in 0..n {
        if !has_writable(cpu, segments, 1, a.wrapping_add(i)) {
            return false;
        }
    }
    true
}

/// `bytes` written from `a` on in one segment, if one may be written so.
fn store_whole(cpu: &Cpu, segments: &mut [Mapped], a: u64, bytes: &[u8]) -> bool
    ensures whole { result ≡ has_writable cpu.now (loaded segments.old) (length bytes.now) a }
    ensures after { loaded segments.new ≡ (if result then stored cpu.now a bytes.now (loaded segments.old) else loaded segments.old) }
{
    match writable_place(cpu, segments, a, bytes.len() as u64) {
        Some(k) => {
            write_in(&mut segments[k], a, bytes);
            true
        }
        None => false,
    }
}

/// All of the `n` bytes from `a` on may be read. No process has an address at or above 2^47.
pub(crate) fn is_range(cpu: &Cpu, segments: &[Mapped], a: u64, n: u64) -> bool
    ensures { result ≡ is_range (state cpu.now segments.now) a n }
{
    if n > 0x8000_0000_0000 || a > 0x8000_0000_0000 - n {
        return false;
    }
    has_readable(cpu, segments, n, a) || all_readable(cpu, segments, n, a)
}

/// The byte at a place, whatever the flags of its segment.
pub(crate) fn byte_at(segments: &[Mapped], a: u64) -> Option<u8>
    ensures { result ≡ byte_at (loaded segments.now) a }
{
    match held(segments, a) {
        Some(m) => Some(byte_in(m, a)),
        None => None,
    }
}

/// `bytes` written from `a` on, byte by byte, where each may be written.
fn put_each(cpu: &Cpu, segments: &mut [Mapped], a: u64, bytes: &[u8])
    ensures { loaded segments.new ≡ stored_each cpu.now a bytes.now (loaded segments.old) }
{
    let mut place = a;
    for b in bytes {
        let _stored = store_whole(cpu, segments, place, &[*b]);
        place = place.wrapping_add(1);
    }
}

fn write_each(cpu: &Cpu, segments: &mut [Mapped], a: u64, bytes: &[u8]) -> bool
    ensures after { write_each cpu.now (loaded segments.old) a bytes.now ≡ (if result then Some (loaded segments.new) else None) }
    ensures unchanged { result ≡ false → loaded segments.new ≡ loaded segments.old }
{
    if !all_writable(cpu, segments, bytes.len() as u64, a) {
        return false;
    }
    put_each(cpu, segments, a, bytes);
    true
}

/// `bytes` written from `a` on, if they may be; otherwise the memory stays.
pub(crate) fn write(cpu: &Cpu, segments: &mut [Mapped], a: u64, bytes: &[u8]) -> bool
    ensures after { written cpu.now (loaded segments.old) a bytes.now ≡ (if result then Some (loaded segments.new) else None) }
    ensures unchanged { result ≡ false → loaded segments.new ≡ loaded segments.old }
{
    if store_whole(cpu, segments, a, bytes) {
        return true;
    }
    write_each(cpu, segments, a, bytes)
}
