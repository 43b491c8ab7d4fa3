//! Writes the executable file of a code.
ghost use Rattle.std.specs.Prelude.{◌≡◌, ◌++◌, ◌≤◌, ◌-◌, length, replicate, IfOk, OnOk, Ok, flat_map};
ghost use Rattle.x64_table.specs.declared.image.Code.{Code};
ghost use Rattle.x64_table.specs.declared.image.Sizes.{Sizes};
ghost use Rattle.elf_image.specs.Fields.{word, xword, padded, program_header};
ghost use Rattle.elf_image.specs.Layout.{file_header, file_of, image_of, data_place, data_of, IsWritable};
ghost use Rattle.elf_image.specs.Load.{loaded};

use crate::header::ProgramHeader;
use crate::layout::{data_place, headers_of};
use oxml_base::NoMemory;
use std::alloc::Global;
use x64_table::{Code, Sizes};

/// The bytes of the executable file of `c`, whose area and stacks have `sizes`, in words of 8 bytes.
///
/// The file has the header and the program headers, the code from 0x1000 on, and the literals from
/// the next multiple of 0x1000 on; between them are zeros. It loads to exactly the code, the
/// literals, the area, the local stack and the call stack, each at its own address; an area or
/// a stack of no words is left out.
pub fn write_image(alloc: Global, c: &Code, sizes: Sizes) -> Result<Vec<u8>, NoMemory>
    requires { IsWritable c.now sizes }
    ensures file { IfOk result (λ v. v.items ≡ file_of c.now sizes) }
    ensures loads { IfOk result (λ v. loaded v.items ≡ Ok (image_of c.now sizes)) }
{
    let headers = headers_of(alloc, c, sizes)?;
    let place = data_place(c);
    let mut file = Vec::with_capacity(alloc, place + c.literals.len().max(8))?;
    file.extend_from_slice(&file_header(headers.len() as u16))?;
    write_headers(&mut file, headers.as_slice())?;
    pad(&mut file, 0x1000)?;
    file.extend_from_slice(c.bytes.as_slice())?;
    pad(&mut file, place)?;
    write_data(&mut file, c.literals.as_slice())?;
    Ok(file)
}

/// What was written loads: the file of a code and its sizes has the image of the code and its sizes.
pub fn written_images_load()
    ensures { (c : Code) (z : Sizes) → IsWritable c z → loaded (file_of c z) ≡ Ok (image_of c z) }
{}

/// The header of an executable file with `count` program headers, which begin right behind it.
fn file_header(count: u16) -> [u8; 64]
    ensures { result ≡ file_header count }
{
    let [low, high] = count.to_le_bytes();
    [
        // 64 bits, little endian, version 1
        0x7f, b'E', b'L', b'F', 2, 1, 1, 0, 0, 0, 0, 0, 0, 0, 0, 0,
        // an executable for x86-64, version 1
        2, 0, 62, 0, 1, 0, 0, 0,
        // the entry
        0, 0, 0x40, 0, 0, 0, 0, 0,
        // where the program headers begin; no section headers
        64, 0, 0, 0, 0, 0, 0, 0, 0, 0, 0, 0, 0, 0, 0, 0,
        // no flags; the sizes of this header and of a program header, and how many there are
        0, 0, 0, 0, 64, 0, 56, 0, low, high, 0, 0, 0, 0, 0, 0,
    ]
}

fn write_headers(file: &mut Vec<u8>, headers: &[ProgramHeader]) -> Result<(), NoMemory>
    ensures { OnOk result (file.new.items ≡ file.old.items ++ flat_map program_header headers.now) }
{
    for h in headers {
        write_header(file, h)?;
    }
    Ok(())
}

fn write_header(file: &mut Vec<u8>, h: &ProgramHeader) -> Result<(), NoMemory>
    ensures { OnOk result (file.new.items ≡ file.old.items ++ program_header h.now) }
{
    write_word(file, h.kind)?;
    write_word(file, h.flags)?;
    let numbers = [
        h.offset,
        h.address,
        h.address,
        h.file_size,
        h.memory_size,
        0x1000,
    ];
    write_xwords(file, &numbers)
}

fn write_xwords(file: &mut Vec<u8>, numbers: &[u64]) -> Result<(), NoMemory>
    ensures { OnOk result (file.new.items ≡ file.old.items ++ flat_map xword numbers.now) }
{
    for n in numbers {
        write_xword(file, *n)?;
    }
    Ok(())
}

fn write_word(file: &mut Vec<u8>, n: u32) -> Result<(), NoMemory>
    ensures { OnOk result (file.new.items ≡ file.old.items ++ word n) }
{
    file.extend_from_slice(&n.to_le_bytes())?;
    Ok(())
}

fn write_xword(file: &mut Vec<u8>, n: u64) -> Result<(), NoMemory>
    ensures { OnOk result (file.new.items ≡ file.old.items ++ xword n) }
{
    file.extend_from_slice(&n.to_le_bytes())?;
    Ok(())
}

/// Adds zeros up to a length of `n` bytes.
#[tactic(auto, unfolding(crate::specs::Fields::padded))]
fn pad(file: &mut Vec<u8>, n: usize) -> Result<(), NoMemory>
    ensures { OnOk result (file.new.items ≡ padded n file.old.items) }
{
    if file.len() < n {
        file.resize(n, 0)?;
    }
    Ok(())
}

/// Adds the literals and top-level slots, at least 8 bytes.
fn write_data(file: &mut Vec<u8>, literals: &[u8]) -> Result<(), NoMemory>
    ensures { OnOk result
        (file.new.items ≡ file.old.items ++ (literals.now ++ replicate (8 - length literals.now) 0)) }
{
    file.extend_from_slice(literals)?;
    let missing = 8usize.saturating_sub(literals.len());
    file.resize(file.len() + missing, 0)?;
    Ok(())
}
