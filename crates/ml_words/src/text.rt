ghost use Rattle.std.specs.Prelude.{◌≡◌, ◌+◌, ◌/◌, ◌++◌, ◌&&◌, IfOk, Some, None, pos, int_le, unsigned_abs, if◌then◌else◌};
ghost use Rattle.std.specs.Fmt.{signed_decimal};
ghost use Rattle.ml_meaning.specs.Comparing.{text_order};
ghost use Rattle.ml_meaning.specs.Operations.{byte_at};

use bumpalo::Bump;
use oxml_base::NoMemory;
use std::alloc::Global;
use std::cmp::Ordering;

/// How a text stands to another, byte by byte; a text is below those that it begins.
#[tactic(auto, using(crate::proofs::Texts::order_as_slices))]
pub fn text_order(one: &[u8], other: &[u8]) -> Ordering
    ensures { result ≡ text_order one.now other.now }
{
    one.cmp(&other)
}

/// The words of a text of so many bytes: one, and one more for each eight bytes or part of them.
pub fn text_words(bytes: usize) -> u64
    ensures { result ≡ 1 + (bytes + 7) / 8 }
{
    let whole = bytes as u64 / 8;
    if bytes % 8 == 0 {
        return 1 + whole;
    }
    2 + whole
}

/// The character of this number; `None` outside 0 to 255.
pub fn byte_of(z: i64) -> Option<u8>
    ensures { result ≡ (if int_le (pos 0) z && int_le z (pos 255) then Some (unsigned_abs z) else None) }
{
    if z < 0 || z > 255 {
        return None;
    }
    Some(z as u8)
}

/// The byte at this place of a text; `None` outside it.
pub fn byte_at(bytes: &[u8], z: i64) -> Option<u8>
    ensures { result ≡ byte_at bytes.now z }
{
    if z < 0 {
        return None;
    }
    bytes.get(z as usize).copied()
}

/// The decimal form of a number, `-` before a negative one. Takes memory in the arena and, for the
/// time of the call, from the allocator.
pub fn decimal<'a>(alloc: Global, bump: &'a Bump, z: i64) -> Result<&'a [u8], NoMemory>
    ensures { IfOk result (λ text. text.now ≡ signed_decimal z) }
{
    let text = format!(in alloc; "{z}")?;
    let bytes: &'a [u8] = bump.try_alloc_slice_copy(text.as_bytes())?;
    Ok(bytes)
}

/// The bytes of one text and then of another.
pub fn join<'a>(
    alloc: Global,
    bump: &'a Bump,
    one: &[u8],
    other: &[u8],
) -> Result<&'a [u8], NoMemory>
    ensures { IfOk result (λ text. text.now ≡ one.now ++ other.now) }
{
    let mut all = Vec::with_capacity(alloc, one.len())?;
    all.extend_from_slice(one)?;
    all.extend_from_slice(other)?;
    let bytes: &'a [u8] = bump.try_alloc_slice_copy(all.as_slice())?;
    Ok(bytes)
}
