ghost use Rattle.std.specs.Prelude.{◌≡◌, ◌≤◌, ◌-◌, ◌^◌, min, ℕ, List, length, IfOk, IfErr};
ghost use Rattle.oxml_driver.specs.Build.{AreSizes, Compiles, IsPrinter, IsPrinterCode, NotCompiled, PrintsTexts, most_bytes};
ghost use Rattle.oxml_driver.specs.Printer.{bytes_of, joined};

use crate::form::{FormErr, printed_texts};
use crate::front::program_text;
use crate::printer::printer;
use crate::types::read_typed;
use elf_image::write_image;
use oxml_base::{Items, Limit, Lit, NoMemory, Refusal, Rule, Span};
use std::alloc::Global;
use thiserror::Error;
use x64_table::{Code, Sizes};

/// The most bytes of a source.
pub const MOST_BYTES: u64 = 1_048_576;

/// The most bytes of texts whose code is made, well above what a source holds.
const MOST_PRINTED: usize = 8 * MOST_BYTES as usize;

/// Why a source is not compiled.
#[derive(Clone, Copy, Debug, PartialEq, Eq, Error)]
pub enum CompileErr {
    #[error("a rule of the language is violated")]
    Refused(Refusal),
    #[error("a limit of the compiler is passed")]
    Limit(Limit, Option<Span>),
    #[error("want of memory")]
    NoMemory,
}

/// Compiles a source to an executable with memory of these sizes.
///
/// It refuses a source by the first rule that it violates, or the first limit that it passes, in the
/// order of the compiler: bytes, tokens, lexical faults, the syntax, names, captures, declarations,
/// types with the limit of a type's size, comparisons, and the first item that is not built yet
/// (rule 25).
pub fn compile(alloc: Global, source: &[u8], sizes: Sizes) -> Result<Vec<u8>, CompileErr>
    requires { AreSizes sizes }
    ensures ok { IfOk result (λ image. Compiles source.now sizes image.items) }
    ensures err { IfErr result (NotCompiled source.now) }
{
    if source.len() as u64 > MOST_BYTES {
        return Err(CompileErr::Limit(Limit::Bytes(MOST_BYTES + 1), None));
    }
    let texts = texts_of(alloc, source)?;
    match build_printer(alloc, texts.as_slice(), sizes) {
        Ok(image) => Ok(image),
        Err(NoMemory) => Err(CompileErr::NoMemory),
    }
}

/// The texts that the items of a source print, in order.
fn texts_of(alloc: Global, source: &[u8]) -> Result<Items<Lit>, CompileErr>
    requires { length source.now ≤ most_bytes }
    ensures ok { IfOk result (λ texts. PrintsTexts source.now (bytes_of texts)) }
    ensures err { IfErr result (NotCompiled source.now) }
{
    let text = match program_text(alloc, source) {
        Ok(text) => text,
        Err(NoMemory) => return Err(CompileErr::NoMemory),
    };
    let scoped = read_typed(alloc, source, text.as_slice())?;
    match printed_texts(alloc, &scoped, source.len() as u32) {
        Ok(texts) => Ok(texts),
        Err(FormErr::LeftOut(span)) => Err(CompileErr::Refused(Refusal {
            rule: Rule::LeftOut,
            span,
        })),
        Err(FormErr::NoMemory) => Err(CompileErr::NoMemory),
    }
}

/// The executable that writes the texts.
fn build_printer(alloc: Global, texts: &[Lit], sizes: Sizes) -> Result<Vec<u8>, NoMemory>
    requires sizes { AreSizes sizes }
    ensures { IfOk result (λ image. IsPrinter (bytes_of texts.now) sizes image.items) }
{
    let code = print_code(alloc, texts)?;
    write_image(alloc, &code, sizes)
}

/// The code that writes the texts. The texts of a source are no longer than it; longer ones, whose
/// code might not fit an executable, are answered as want of memory.
fn print_code(alloc: Global, texts: &[Lit]) -> Result<Code, NoMemory>
    ensures { IfOk result (λ code. IsPrinterCode (bytes_of texts.now) code) }
{
    if joined_length(texts) > MOST_PRINTED {
        return Err(NoMemory);
    }
    printer(alloc, texts)
}

/// How many bytes the texts have together, or `usize::MAX` where they have more.
fn joined_length(texts: &[Lit]) -> usize
    ensures { result ≡ min (length (joined (bytes_of texts.now))) (2 ^ 64 - 1) }
{
    let mut total = 0usize;
    for text in texts {
        total = total.saturating_add(text.bytes.len());
    }
    total
}
