ghost use Rattle.std.specs.Prelude.{◌≡◌, ◌<◌, ◌≤◌, true, IfSome, option_map, find, take, drop, length, ◌-◌};
ghost use Rattle.x64_table.specs.Encoding.{is_row};
ghost use Rattle.x64_table.specs.Machine.{fetched, fetched_across, code_byte, run_of_bytes};
ghost use Rattle.x64_table.specs.View.{loaded};

use crate::instr::Instr;
use crate::memory::{Mapped, byte_in, code};
use crate::reading::decode;

/// The byte at `a`, if it may be executed.
fn code_byte(segments: &[Mapped], a: u64) -> Option<u8>
    ensures { result ≡ code_byte (loaded segments.now) a }
{
    match code(segments, a) {
        Some(m) => Some(byte_in(m, a)),
        None => None,
    }
}

/// The bytes to execute from `a` on, 15 at most, and how many there are.
fn run_of_bytes(segments: &[Mapped], a: u64) -> ([u8; 15], usize)
    ensures bytes { take result.1 result.0 ≡ run_of_bytes (code_byte (loaded segments.now)) 15 a }
    ensures most { result.1 ≤ 15 }
{
    let mut part = [0u8; 15];
    for i in 0..15 {
        let Some(b) = code_byte(segments, a.wrapping_add(i as u64)) else {
            return (part, i);
        };
        part[i] = b;
    }
    (part, 15)
}

/// An instruction that runs on from one segment into the next.
fn fetch_across(segments: &[Mapped], a: u64) -> Option<(Instr, u8)>
    ensures value { result ≡ fetched_across (loaded segments.now) a }
    ensures row { IfSome result (λ r. is_row r.0 ≡ true) }
{
    let (part, len) = run_of_bytes(segments, a);
    decode(&part[..len])
}

/// The instruction at `a`, which only a segment to execute gives, and its length.
#[tactic(auto, unfolding(crate::specs::Machine::fetched))]
pub(crate) fn fetch(segments: &[Mapped], a: u64) -> Option<(Instr, u8)>
    ensures value { result ≡ fetched (loaded segments.now) a }
    ensures row { IfSome result (λ r. is_row r.0 ≡ true) }
{
    let Some(m) = code(segments, a) else {
        return None;
    };
    match decode(bytes_from(m, a)) {
        Some(row) => Some(row),
        None => fetch_across(segments, a),
    }
}

/// The bytes of a segment from `a` on, which it holds.
fn bytes_from(m: &Mapped, a: u64) -> &[u8]
    ensures { result.now ≡ drop (a - m.now.at) m.now.bytes.items }
{
    let k = (a.saturating_sub(m.at) as usize).min(m.bytes.len());
    &m.bytes[k..]
}
