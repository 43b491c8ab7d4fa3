//! Takes an executable file into memory.
ghost use Rattle.std.specs.Prelude.{◌≡◌, ◌≢◌, ◌+◌, ◌≤◌, ◌<◌, ◌^◌, ℕ, length, true, false, Ok, Err, IfOk, IfErr};
ghost use Rattle.std.specs.List.{list_any};
ghost use Rattle.elf_image.specs.declared.error.ImageErr.TheVariants.{NoMemory as OutOfMemory, Segment as RefusedSegment};
ghost use Rattle.elf_image.specs.Fields.{header_place};
ghost use Rattle.elf_image.specs.Load.{is_elf, has_ident, has_machine, has_count, has_tables, is_kind, header_count, end_before, is_in_file, has_flags, has_room, is_behind, is_good_header, is_good, segment_by, segment_at, can_run, image_at, entered, loaded_unless, refused_segment, IsGood, IsBad, IsAllGood, IsFirstBad, loaded};
ghost use Rattle.elf_image.specs.Loadable.{IsLoadable};

use crate::error::ImageErr;
use crate::fields::{half_at, header_at, word_at, xword_at};
use crate::header::ProgramHeader;
use oxml_base::Items;
use std::alloc::{AllocError, Global};
use x64_table::{Image, Segment};

/// The image that the kernel makes of an executable file: its entry, and its segments with their
/// bytes. Zeros fill each segment up to its size.
///
/// The first test that the file does not pass is answered, in the order of `ImageErr`. All sums
/// are of whole numbers, so that none wraps.
pub fn load(alloc: Global, bytes: &[u8]) -> Result<Image, ImageErr>
    ensures loaded { result ≢ Err OutOfMemory → result ≡ loaded bytes.now }
    ensures loadable { IfOk result IsLoadable }
{
    if bytes.len() < 64 {
        return Err(ImageErr::Short);
    }
    if !is_elf(bytes) {
        return Err(ImageErr::Magic);
    }
    if !is_kind(bytes) {
        return Err(ImageErr::Kind);
    }
    let segments = read_segments(alloc, bytes)?;
    let entry = xword_at(bytes, 24);
    if !has_entry(segments.as_slice(), entry) {
        return Err(ImageErr::Entry);
    }
    Ok(Image { entry, segments })
}

fn is_elf(bytes: &[u8]) -> bool
    requires { 64 ≤ length bytes.now }
    ensures { result ≡ is_elf bytes.now }
{
    bytes.starts_with(b"\x7fELF")
}

fn is_kind(bytes: &[u8]) -> bool
    requires { 64 ≤ length bytes.now }
    ensures { result ≡ is_kind bytes.now }
{
    has_ident(bytes) && has_machine(bytes) && has_tables(bytes)
}

fn has_ident(bytes: &[u8]) -> bool
    requires { 64 ≤ length bytes.now }
    ensures { result ≡ has_ident bytes.now }
{
    bytes[4] == 2 && bytes[5] == 1 && bytes[6] == 1
}

fn has_machine(bytes: &[u8]) -> bool
    requires { 64 ≤ length bytes.now }
    ensures { result ≡ has_machine bytes.now }
{
    half_at(bytes, 16) == 2 && half_at(bytes, 18) == 62 && word_at(bytes, 20) == 1
}

fn has_tables(bytes: &[u8]) -> bool
    requires { 64 ≤ length bytes.now }
    ensures { result ≡ has_tables bytes.now }
{
    xword_at(bytes, 32) == 64
        && half_at(bytes, 52) == 64
        && half_at(bytes, 54) == 56
        && has_count(bytes)
}

fn has_count(bytes: &[u8]) -> bool
    requires { 64 ≤ length bytes.now }
    ensures { result ≡ has_count bytes.now }
{
    let count = half_at(bytes, 56);
    1 <= count && count <= 8
}

/// All segments, in the order of their program headers; or the number of the first that cannot be
/// loaded.
fn read_segments(alloc: Global, bytes: &[u8]) -> Result<Items<Segment>, ImageErr>
    requires long { 64 ≤ length bytes.now }
    requires few { header_count bytes.now ≤ 8 }
    ensures all { IfOk result (λ segments. IsAllGood bytes.now segments) }
    ensures refused { IfErr result (λ e. e ≢ OutOfMemory → IsFirstBad bytes.now e) }
{
    let mut segments = Items::new(alloc);
    let mut end = 0;
    for n in 0..half_at(bytes, 56) {
        let segment = read_segment(alloc, bytes, n, end)?;
        end = segment.at + segment.size;
        segments.push(segment)?;
    }
    Ok(segments)
}

/// The segment of program header `n`, where the one before it ends at `end`.
fn read_segment(alloc: Global, bytes: &[u8], n: u16, end: u64) -> Result<Segment, ImageErr>
    requires long { 64 ≤ length bytes.now }
    requires few { n < 8 }
    requires before { end ≡ end_before bytes.now n }
    ensures good { IfOk result (λ segment. IsGood bytes.now n segment) }
    ensures refused { IfErr result (λ e. e ≢ OutOfMemory → IsBad bytes.now n e) }
{
    if bytes.len() < 64 + 56 * (n as usize + 1) {
        return Err(ImageErr::Segment(n));
    }
    let header = header_at(bytes, n);
    if !is_good_header(bytes.len() as u64, end, &header) {
        return Err(ImageErr::Segment(n));
    }
    Ok(segment_by(alloc, bytes, &header)?)
}

fn segment_by(alloc: Global, bytes: &[u8], h: &ProgramHeader) -> Result<Segment, AllocError>
    requires file { h.now.offset + h.now.file_size ≤ length bytes.now }
    requires flags { h.now.flags ≤ 6 }
    ensures { IfOk result (λ s. s ≡ segment_by bytes.now h.now) }
{
    let start = h.offset as usize;
    let end = start + h.file_size as usize;
    Ok(Segment {
        at: h.address,
        size: h.memory_size,
        flags: h.flags as u8,
        bytes: Items::from_slice(alloc, &bytes[start..end])?,
    })
}

fn is_good_header(len: u64, end: u64, h: &ProgramHeader) -> bool
    ensures { result ≡ is_good_header len end h.now }
{
    is_in_file(len, h) && has_flags(h) && has_room(h) && is_behind(end, h)
}

fn is_in_file(len: u64, h: &ProgramHeader) -> bool
    ensures { result ≡ is_in_file len h.now }
{
    // The sum may not fit 64 bits.
    h.file_size <= len && h.offset <= len - h.file_size && h.kind == 1
}

fn has_flags(h: &ProgramHeader) -> bool
    ensures { result ≡ has_flags h.now }
{
    4 <= h.flags && h.flags <= 6
}

fn has_room(h: &ProgramHeader) -> bool
    ensures { result ≡ has_room h.now }
{
    h.file_size <= h.memory_size && h.memory_size <= 1 << 30
}

fn is_behind(end: u64, h: &ProgramHeader) -> bool
    ensures { result ≡ is_behind end h.now }
{
    h.memory_size <= 1 << 47 && h.address <= (1 << 47) - h.memory_size && end <= h.address
}

/// Whether the entry is in a segment that can be executed.
fn has_entry(segments: &[Segment], entry: u64) -> bool
    ensures { result ≡ list_any (can_run entry) segments.now }
{
    for segment in segments {
        if can_run(entry, segment) {
            return true;
        }
    }
    false
}

fn can_run(at: u64, s: &Segment) -> bool
    ensures { result ≡ can_run at s.now }
{
    s.flags % 2 == 1 && s.at <= at && at - s.at < s.size
}
