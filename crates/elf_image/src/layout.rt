//! Which segments a made program has, and where its file has their bytes.
ghost use Rattle.std.specs.Prelude.{◌≡◌, ◌++◌, ◌≤◌, ◌-◌, ◌*◌, ℕ, length, IfOk, OnOk};
ghost use Rattle.elf_image.specs.Layout.{data_place, headers_of, words_header, IsWritable};

use crate::header::ProgramHeader;
use oxml_base::NoMemory;
use std::alloc::Global;
use x64_table::{Code, Sizes};

/// Where the file has the literals: at the first whole page behind the code.
pub fn data_place(c: &Code) -> usize
    requires { length c.now.bytes ≤ 1_060_004_096 }
    ensures { result ≡ data_place c.now }
{
    (0x1000 + c.bytes.len() + 0xfff) / 0x1000 * 0x1000
}

/// The program headers of a made program, in the order of the addresses.
pub fn headers_of(alloc: Global, c: &Code, sizes: Sizes) -> Result<Vec<ProgramHeader>, NoMemory>
    requires { IsWritable c.now sizes }
    ensures { IfOk result (λ headers. headers.items ≡ headers_of c.now sizes) }
{
    let mut headers = Vec::with_capacity(alloc, 5)?;
    let code = c.bytes.len() as u64;
    headers.push(ProgramHeader {
        kind: 1,
        flags: 5,
        offset: 0x1000,
        address: 0x40_0000,
        file_size: code,
        memory_size: code,
    })?;
    let data = c.literals.len().max(8) as u64;
    headers.push(ProgramHeader {
        kind: 1,
        flags: 6,
        offset: data_place(c) as u64,
        address: 0x4000_0000,
        file_size: data,
        memory_size: data,
    })?;
    push_words(&mut headers, 0x1_0000_0000, sizes.area)?;
    push_words(&mut headers, 0x2_0000_0000, sizes.local)?;
    push_words(&mut headers, 0x3_0000_0000, sizes.stack)?;
    Ok(headers)
}

/// Adds the header of a segment of so many words, where it has any.
fn push_words(headers: &mut Vec<ProgramHeader>, address: u64, words: u32) -> Result<(), NoMemory>
    ensures { OnOk result (headers.new.items ≡ headers.old.items ++ words_header address words) }
{
    if words > 0 {
        headers.push(ProgramHeader {
            kind: 1,
            flags: 6,
            offset: 0,
            address,
            file_size: 0,
            memory_size: 8 * u64::from(words),
        })?;
    }
    Ok(())
}
