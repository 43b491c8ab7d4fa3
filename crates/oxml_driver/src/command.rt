//! The command as a whole.
ghost use Rattle.std.specs.Prelude.{◌≡◌, ◌≤◌, ℕ, List, true, Some, IfOk, length, string_bytes};
ghost use Rattle.oxml_base.specs.Outside.{GainsPart, SinkView};
ghost use Rattle.oxml_driver.specs.Build.{most_bytes};
ghost use Rattle.oxml_driver.specs.Command.{Answers, IsDecided, NothingFailed};
ghost use Rattle.oxml_driver.specs.Lines.{no_memory_line, write_fault_line};
ghost use Rattle.oxml_driver.specs.Said.{AnswersBuild, Said, SaidUnread};
ghost use Rattle.oxml_driver.specs.Words.{texts_of};

use crate::compile::{CompileErr, MOST_BYTES, compile};
use crate::lines::{
    NO_MEMORY, USAGE, WRITE_FAULT, bytes_limit_line, limit_line, read_fault_line, refusal_line,
};
use crate::words::Build;
use oxml_base::{Failed, LoadErr, SaveErr, Shelf, Sink};
use std::alloc::{AllocError, Global};
use x64_table::Sizes;

/// The words of memory, of eight bytes, where the command says nothing else.
const DEFAULT_SIZES: Sizes = Sizes {
    area: 16_777_216,
    local: 2_097_152,
    stack: 8_388_608,
};

/// All that the program does. `words` leaves out the program's own name.
///
/// `build FILE -o OUT` compiles FILE, saves the executable under OUT and answers 0. Other answers
/// are 1 where the source violates a rule, 2 where the words are no command, 3 where FILE could not
/// be read, 4 where OUT or a line could not be written, 5 where the source passes a limit, and 6
/// for want of memory; each puts a line on `err`.
pub fn oxml<S: Shelf, O: Sink, E: Sink>(
    alloc: Global,
    words: &[&str],
    shelf: &mut S,
    out: &mut O,
    err: &mut E,
) -> u8
    // Each status has its cause, and says what stands behind it.
    ensures answers { Answers (texts_of words.now)
        (record { shelf = S.shelf shelf.old; out = O.sink out.old; err = E.sink err.old })
        (record { shelf = S.shelf shelf.new; out = O.sink out.new; err = E.sink err.new }) result }
    // Where nothing of the outside fails, the words and the source decide the status, or it is 6.
    ensures decided { NothingFailed
        (record { shelf = S.shelf shelf.old; out = O.sink out.old; err = E.sink err.old })
        (record { shelf = S.shelf shelf.new; out = O.sink out.new; err = E.sink err.new })
        → IsDecided (texts_of words.now)
        (record { shelf = S.shelf shelf.old; out = O.sink out.old; err = E.sink err.old }) result }
{
    answer(alloc, words, shelf, err)
}

/// Answers the words. Nothing is put on `out`, whatever that is.
fn answer<S: Shelf, E: Sink>(alloc: Global, words: &[&str], shelf: &mut S, err: &mut E) -> u8
    ensures { (out : SinkView) → Answers (texts_of words.now)
        (record { shelf = S.shelf shelf.old; out = out; err = E.sink err.old })
        (record { shelf = S.shelf shelf.new; out = out; err = E.sink err.new }) result }
{
    match Build::read(words) {
        None => say(err, 2, USAGE),
        Some(build) => run(alloc, build, shelf, err),
    }
}

/// Builds a file.
fn run<S: Shelf, E: Sink>(alloc: Global, build: Build<'_>, shelf: &mut S, err: &mut E) -> u8
    ensures { AnswersBuild build.entry.file.now build.entry.out.now (S.shelf shelf.old) (S.shelf shelf.new) (E.sink err.old) (E.sink err.new) result }
{
    let mut source = Vec::new(alloc);
    match shelf.load(build.file, &mut source, MOST_BYTES) {
        Ok(()) => finish(alloc, build, source.as_slice(), shelf, err),
        Err(LoadErr::TooLong) => say_made(err, 5, bytes_limit_line(alloc, build.file)),
        Err(LoadErr::Failed) => say_unread(err, read_fault_line(alloc, build.file)),
        Err(LoadErr::NoMemory) => want_of_memory(err),
    }
}

/// Compiles a source that was loaded, and saves what it is compiled to.
fn finish<S: Shelf, E: Sink>(
    alloc: Global,
    build: Build<'_>,
    source: &[u8],
    shelf: &mut S,
    err: &mut E,
) -> u8
    requires short { length source.now ≤ most_bytes }
    requires told { (S.shelf shelf.old).tells ≡ true → (S.shelf shelf.old).held build.file.now ≡ Some source.now }
    ensures { AnswersBuild build.entry.file.now build.entry.out.now (S.shelf shelf.old) (S.shelf shelf.new) (E.sink err.old) (E.sink err.new) result }
{
    match compile(alloc, source, DEFAULT_SIZES) {
        Ok(image) => match shelf.save(build.out, image.as_slice()) {
            Ok(()) => 0,
            Err(SaveErr::Failed) => say_unwritten(err),
            Err(SaveErr::NoMemory) => want_of_memory(err),
        },
        Err(CompileErr::Refused(refusal)) => say_made(
            err,
            1,
            refusal_line(alloc, build.file, source, refusal),
        ),
        Err(CompileErr::Limit(limit, place)) => say_made(
            err,
            5,
            limit_line(alloc, build.file, source, limit, place),
        ),
        Err(CompileErr::NoMemory) => want_of_memory(err),
    }
}

/// Puts a line, and answers the status, or 4 where the put fails.
fn say<E: Sink>(err: &mut E, status: u8, line: &str) -> u8
    ensures { Said status result (E.sink err.old) (E.sink err.new) line.now }
{
    match err.put(line.as_bytes()) {
        Ok(()) => status,
        Err(Failed) => {
            put_last(err, WRITE_FAULT);
            4
        }
    }
}

/// Puts a line, if there was memory to make it.
fn say_made<E: Sink>(err: &mut E, status: u8, line: Result<String, AllocError>) -> u8
    ensures { (text : List ℕ) → IfOk line (λ made. string_bytes made ≡ text) → Said status result (E.sink err.old) (E.sink err.new) text }
{
    match line {
        Ok(line) => say(err, status, line.as_str()),
        Err(_) => want_of_memory(err),
    }
}

/// Tries the last line of a call that answers 3.
fn say_unread<E: Sink>(err: &mut E, line: Result<String, AllocError>) -> u8
    ensures { (text : List ℕ) → IfOk line (λ made. string_bytes made ≡ text) → SaidUnread result (E.sink err.old) (E.sink err.new) text }
{
    match line {
        Ok(line) => {
            put_last(err, line.as_str());
            3
        }
        Err(_) => want_of_memory(err),
    }
}

/// Tries the last line of a call that answers 4.
fn say_unwritten<E: Sink>(err: &mut E) -> u8
    ensures status { result ≡ 4 }
    ensures err { GainsPart (E.sink err.old) (E.sink err.new) write_fault_line }
{
    put_last(err, WRITE_FAULT);
    4
}

/// Tries the last line of a call that answers 6.
pub fn want_of_memory<E: Sink>(err: &mut E) -> u8
    ensures status { result ≡ 6 }
    ensures err { GainsPart (E.sink err.old) (E.sink err.new) no_memory_line }
{
    put_last(err, NO_MEMORY);
    6
}

/// Puts a line of which nothing is owed.
fn put_last<E: Sink>(err: &mut E, line: &str)
    ensures part { GainsPart (E.sink err.old) (E.sink err.new) line.now }
    ensures faults { (E.sink err.old).faults ≤ (E.sink err.new).faults }
{
    let _ = err.put(line.as_bytes());
}
