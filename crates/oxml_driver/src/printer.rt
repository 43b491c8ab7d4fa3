//! The program in machine code that writes texts and then exits.
ghost use Rattle.std.specs.Prelude.{ℕ, ◌≡◌, ◌+◌, ◌*◌, ◌<◌, ◌^◌, ◌≤◌, ◌++◌, List, length, map, flat_map, IfOk, OnOk, IsTrue, true};
ghost use Rattle.std.specs.List.{list_all};
ghost use Rattle.x64_table.specs.declared.image.Sizes.{Sizes};
ghost use Rattle.x64_table.specs.Agreement.{Agrees, no_excuse};
ghost use Rattle.x64_table.specs.Encoding.{encoding, is_row};
ghost use Rattle.elf_image.specs.Layout.{image_of};
ghost use Rattle.oxml_driver.specs.Printer.{joined, printer_of, prints, exit_with, ask_rows, answer_rows, rest_rows, write_loop, write_of, bytes_of};

use oxml_base::{Items, Lit, NoMemory};
use std::alloc::Global;
use x64_encode::encode;
use x64_table::{ArithOp, Code, Cond, Instr, Reg};

/// A law: whatever the kernel answers, and after every number of steps, the program that is made for
/// some texts does what it means. It writes the texts on channel 1, goes on with the rest behind a short
/// write, ends with the status 0, and with the status 104 only behind a refused write.
pub fn printers_agree()
    ensures { (texts : List (List ℕ)) (sizes : Sizes) → length (printer_of texts).bytes ≤ 1_060_004_096 → length (joined texts) ≤ 1_060_004_096 → Agrees (prints texts) no_excuse (image_of (printer_of texts) sizes) }
{}

/// The address of the literals in an image.
const LITERALS_AT: u64 = 0x4000_0000;

/// The code that writes `texts`, one after another, on channel 1 and then exits with the status 0; its
/// literals are the texts' bytes.
pub fn printer(alloc: Global, texts: &[Lit]) -> Result<Code, NoMemory>
    requires { length (joined (bytes_of texts.now)) ≤ 1_060_004_096 }
    ensures code { IfOk result (λ c. c ≡ printer_of (bytes_of texts.now)) }
    ensures least { IfOk result (λ c. 22 ≤ length c.bytes) }
    ensures most { IfOk result (λ c. length c.bytes ≤ 22 + 112 * length c.literals) }
{
    let mut bytes = Vec::new(alloc);
    let mut literals = Vec::new(alloc);
    for text in texts {
        let place = LITERALS_AT + literals.len() as u64;
        add_write(&mut bytes, place, text.bytes.len() as u64)?;
        literals.extend_from_slice(text.bytes.as_slice())?;
    }
    add_exit(&mut bytes, 0)?;
    Ok(Code {
        bytes: Items::from_vec(bytes),
        literals: Items::from_vec(literals),
    })
}

fn register(number: u8) -> Reg
    requires { number < 16 }
    ensures { result ≡ number }
{
    Reg::new(number).unwrap()
}

fn add(bytes: &mut Vec<u8>, row: &Instr) -> Result<(), NoMemory>
    requires { is_row row.now ≡ true }
    ensures { OnOk result (bytes.new.items ≡ bytes.old.items ++ encoding row.now) }
{
    let (form, length) = encode(*row);
    bytes.extend_from_slice(&form[..length as usize])?;
    Ok(())
}

fn add_all(bytes: &mut Vec<u8>, rows: &[Instr]) -> Result<(), NoMemory>
    requires { IsTrue (list_all is_row rows.now) }
    ensures { OnOk result (bytes.new.items ≡ bytes.old.items ++ flat_map encoding rows.now) }
{
    for row in rows {
        add(bytes, row)?;
    }
    Ok(())
}

/// The program ends with a status.
fn add_exit(bytes: &mut Vec<u8>, status: u64) -> Result<(), NoMemory>
    ensures { OnOk result (bytes.new.items ≡ bytes.old.items ++ flat_map encoding (exit_with status)) }
{
    let rows = [
        Instr::MovImm {
            dst: register(0),
            imm: 60,
        },
        Instr::MovImm {
            dst: register(7),
            imm: status,
        },
        Instr::Syscall,
    ];
    add_all(bytes, &rows)
}

/// `length` bytes from `place` on are written, unless there are none.
fn add_write(bytes: &mut Vec<u8>, place: u64, length: u64) -> Result<(), NoMemory>
    ensures { OnOk result (bytes.new.items ≡ bytes.old.items ++ flat_map encoding (write_of place length)) }
{
    if length == 0 {
        Ok(())
    } else {
        add_write_loop(bytes, place, length)
    }
}

/// Each write asks for all that is left. One that a signal broke off is tried again, and one that is
/// refused otherwise ends the program with the status 104.
fn add_write_loop(bytes: &mut Vec<u8>, place: u64, length: u64) -> Result<(), NoMemory>
    ensures { OnOk result (bytes.new.items ≡ bytes.old.items ++ flat_map encoding (write_loop place length)) }
{
    add_ask(bytes, place, length)?;
    add_answer(bytes)?;
    add_rest(bytes)?;
    add_exit(bytes, 104)
}

/// The kernel is asked to write `length` bytes from `place` on.
fn add_ask(bytes: &mut Vec<u8>, place: u64, length: u64) -> Result<(), NoMemory>
    ensures { OnOk result (bytes.new.items ≡ bytes.old.items ++ flat_map encoding (ask_rows place length)) }
{
    let rows = [
        Instr::MovImm {
            dst: register(6),
            imm: place,
        },
        Instr::MovImm {
            dst: register(2),
            imm: length,
        },
        // the call's number and the channel
        Instr::MovImm {
            dst: register(0),
            imm: 1,
        },
        Instr::MovImm {
            dst: register(7),
            imm: 1,
        },
        Instr::Syscall,
    ];
    add_all(bytes, &rows)
}

/// What the answer in rax leads to: the write again, from the call's number on, or the exit.
fn add_answer(bytes: &mut Vec<u8>) -> Result<(), NoMemory>
    ensures { OnOk result (bytes.new.items ≡ bytes.old.items ++ flat_map encoding answer_rows) }
{
    let rax = register(0);
    let rows = [
        Instr::ArithImm {
            op: ArithOp::Cmp,
            dst: rax,
            imm: -4,
        },
        Instr::JumpIf {
            cond: Cond::E,
            rel: -35,
        },
        Instr::Test { a: rax, b: rax },
        Instr::JumpIf {
            cond: Cond::E,
            rel: 26,
        },
        Instr::Arith {
            op: ArithOp::Cmp,
            dst: rax,
            src: register(2),
        },
        Instr::JumpIf {
            cond: Cond::A,
            rel: 17,
        },
    ];
    add_all(bytes, &rows)
}

/// The rest, if there is one, from the call's number on; else past the exit.
fn add_rest(bytes: &mut Vec<u8>) -> Result<(), NoMemory>
    ensures { OnOk result (bytes.new.items ≡ bytes.old.items ++ flat_map encoding rest_rows) }
{
    let (rax, rdx) = (register(0), register(2));
    let rows = [
        Instr::Arith {
            op: ArithOp::Add,
            dst: register(6),
            src: rax,
        },
        Instr::Arith {
            op: ArithOp::Sub,
            dst: rdx,
            src: rax,
        },
        Instr::JumpIf {
            cond: Cond::NE,
            rel: -65,
        },
        Instr::Jump { rel: 22 },
    ];
    add_all(bytes, &rows)
}
