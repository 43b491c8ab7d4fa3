//! The lines that the command writes, each with its line feed.
ghost use Rattle.std.specs.Prelude.{◌≡◌, ◌≤◌, IfOk, length, take, string_bytes};
ghost use Rattle.oxml_base.specs.LineColumn.{line_behind, column_behind};
ghost use Rattle.oxml_driver.specs.Build.{most_bytes};
ghost use Rattle.oxml_driver.specs.Lines.{bytes_limit_line, captures_limit_line, limit_line, placed_line, read_fault_line, refusal_line, tokens_limit_line, type_limit_line, whole_limit_line};

use oxml_base::{Limit, Refusal, Span, line_col};
use std::alloc::{AllocError, Global};

/// Of words that have no reading as a command.
pub const USAGE: &str = "usage: oxml build|check|run|sim|places|sample|sample-build\n";
/// Of a save or a put that failed.
pub const WRITE_FAULT: &str = "oxml: write fault\n";
/// Of want of memory.
pub const NO_MEMORY: &str = "oxml: want of memory\n";

/// The line of a name that could not be read.
pub fn read_fault_line(alloc: Global, file: &str) -> Result<String, AllocError>
    ensures { IfOk result (λ line. string_bytes line ≡ read_fault_line file.now) }
{
    format!(in alloc; "oxml: read fault: {file}\n")
}

/// The line of a source with too many bytes.
pub fn bytes_limit_line(alloc: Global, file: &str) -> Result<String, AllocError>
    ensures { IfOk result (λ line. string_bytes line ≡ bytes_limit_line file.now) }
{
    format!(in alloc; "{file}: limit bytes 1048577\n")
}

/// The line of a source with too many tokens.
pub fn tokens_limit_line(alloc: Global, file: &str) -> Result<String, AllocError>
    ensures { IfOk result (λ line. string_bytes line ≡ tokens_limit_line file.now) }
{
    format!(in alloc; "{file}: limit tokens 200001\n")
}

/// The line of a source whose functions have too many captures.
pub fn captures_limit_line(alloc: Global, file: &str) -> Result<String, AllocError>
    ensures { IfOk result (λ line. string_bytes line ≡ captures_limit_line file.now) }
{
    format!(in alloc; "{file}: limit captures 100001\n")
}

/// The line of a source in which a type is too large. A place behind the source's end is shown as its end.
fn type_limit_line(
    alloc: Global,
    file: &str,
    source: &[u8],
    span: Span,
) -> Result<String, AllocError>
    requires short { length source.now ≤ most_bytes }
    ensures { IfOk result (λ said. string_bytes said ≡ type_limit_line file.now (line_behind (take span.start source.now)) (column_behind (take span.start source.now))) }
{
    let (line, column) = place_of(source, place_in(source, span.start));
    size_line(alloc, file, line, column)
}

fn size_line(alloc: Global, file: &str, line: u32, column: u32) -> Result<String, AllocError>
    ensures { IfOk result (λ said. string_bytes said ≡ type_limit_line file.now line column) }
{
    format!(in alloc; "{file}:{line}:{column}: limit type size 2001\n")
}

/// The line of a limit that a source passes; one with a place is that of a type's size.
pub fn limit_line(
    alloc: Global,
    file: &str,
    source: &[u8],
    limit: Limit,
    place: Option<Span>,
) -> Result<String, AllocError>
    requires short { length source.now ≤ most_bytes }
    ensures { IfOk result (λ line. string_bytes line ≡ limit_line file.now source.now limit place) }
{
    match place {
        Some(span) => type_limit_line(alloc, file, source, span),
        None => whole_limit_line(alloc, file, limit),
    }
}

/// The line of a limit without a place.
fn whole_limit_line(alloc: Global, file: &str, limit: Limit) -> Result<String, AllocError>
    ensures { IfOk result (λ line. string_bytes line ≡ whole_limit_line file.now limit) }
{
    match limit {
        Limit::Tokens(_) => tokens_limit_line(alloc, file),
        Limit::Captures(_) => captures_limit_line(alloc, file),
        _ => bytes_limit_line(alloc, file),
    }
}

/// The line of a rule that a source violates. A place behind the source's end is shown as its end.
pub fn refusal_line(
    alloc: Global,
    file: &str,
    source: &[u8],
    refusal: Refusal,
) -> Result<String, AllocError>
    requires short { length source.now ≤ most_bytes }
    ensures { IfOk result (λ line. string_bytes line ≡ refusal_line file.now source.now refusal) }
{
    let (line, column) = place_of(source, place_in(source, refusal.span.start));
    placed_line(
        alloc,
        file,
        line,
        column,
        refusal.rule.number(),
        refusal.rule.text(),
    )
}

/// The place in a source, or its end where the place is behind it.
fn place_in(source: &[u8], at: u32) -> u32
    requires short { length source.now ≤ most_bytes }
    ensures within { result ≤ length source.now }
    ensures same { take result source.now ≡ take at source.now }
{
    if at as usize <= source.len() {
        return at;
    }
    source.len() as u32
}

/// The line and the column of a place in a source, counted from 1.
fn place_of(source: &[u8], at: u32) -> (u32, u32)
    requires short { length source.now ≤ most_bytes }
    requires within { at ≤ length source.now }
    ensures line { result.0 ≡ line_behind (take at source.now) }
    ensures column { result.1 ≡ column_behind (take at source.now) }
{
    line_col(source, at)
}

fn placed_line(
    alloc: Global,
    file: &str,
    line: u32,
    column: u32,
    number: u8,
    text: &str,
) -> Result<String, AllocError>
    ensures { IfOk result (λ said. string_bytes said ≡ placed_line file.now line column number text.now) }
{
    format!(in alloc; "{file}:{line}:{column}: rule {number}: {text}\n")
}
