//! The numbers of an ELF-64 file, and its program headers, each read at a place of the file.
ghost use Rattle.std.specs.Prelude.{◌≡◌, ◌+◌, ◌≤◌, length};
ghost use Rattle.elf_image.specs.Fields.{half_at, word_at, xword_at, read_header, header_at, header_place};

use crate::header::ProgramHeader;

/// The number of 2 bytes at `place`.
pub fn half_at(bytes: &[u8], place: usize) -> u16
    requires { place + 2 ≤ length bytes.now }
    ensures { result ≡ half_at bytes.now place }
{
    let rest = &bytes[place..];
    u16::from_le_bytes([rest[0], rest[1]])
}

/// The number of 4 bytes at `place`.
pub fn word_at(bytes: &[u8], place: usize) -> u32
    requires { place + 4 ≤ length bytes.now }
    ensures { result ≡ word_at bytes.now place }
{
    let rest = &bytes[place..];
    u32::from_le_bytes([rest[0], rest[1], rest[2], rest[3]])
}

/// The number of 8 bytes at `place`.
pub fn xword_at(bytes: &[u8], place: usize) -> u64
    requires { place + 8 ≤ length bytes.now }
    ensures { result ≡ xword_at bytes.now place }
{
    let rest = &bytes[place..];
    u64::from_le_bytes([
        rest[0], rest[1], rest[2], rest[3], rest[4], rest[5], rest[6], rest[7],
    ])
}

/// The program header of number `n`.
pub fn header_at(bytes: &[u8], n: u16) -> ProgramHeader
    requires { header_place (n + 1) ≤ length bytes.now }
    ensures { result ≡ header_at bytes.now n }
{
    read_header(&bytes[64 + 56 * n as usize..])
}

/// The program header that the bytes begin with.
fn read_header(bytes: &[u8]) -> ProgramHeader
    requires { 56 ≤ length bytes.now }
    ensures { result ≡ read_header bytes.now }
{
    ProgramHeader {
        kind: word_at(bytes, 0),
        flags: word_at(bytes, 4),
        offset: xword_at(bytes, 8),
        address: xword_at(bytes, 16),
        file_size: xword_at(bytes, 32),
        memory_size: xword_at(bytes, 40),
    }
}
