//! The compiler as a whole: from the words of a command to the image that runs.
#![tactic(auto)]

mod built_in;
mod command;
mod compile;
mod declarations;
mod form;
mod front;
mod lines;
mod names;
mod printer;
#[cfg(test)]
mod tests;
mod types;
mod words;

use command::{oxml, want_of_memory};
use oxml_base::{FileShelf, StdSink};
use std::alloc::AllocError;
use std::env::Env;
use std::process::ExitCode;
use std::{env, io};

/// The words of the command line, without the program's own name.
fn command_words<R: Env + Alloc>(rt: &R) -> io::Result<Vec<String<R::A>, R::A>> {
    let mut words = Vec::new(rt.alloc());
    for word in env::args(rt)?.skip(1) {
        words.push(word)?;
    }
    Ok(words)
}

/// Runs the command with these words, and answers its status.
fn answer(rt: &HostRuntime, words: &[String]) -> Result<u8, AllocError> {
    let mut texts = Vec::new(rt.alloc());
    for word in words {
        texts.push(word.as_str())?;
    }
    let mut shelf = FileShelf::new(rt.alloc(), rt);
    let mut out = StdSink::new(rt.stdout());
    let mut err = StdSink::new(rt.stderr());
    Ok(oxml(rt.alloc(), texts.as_slice(), &mut shelf, &mut out, &mut err))
}

fn main(rt: HostRuntime) -> ExitCode {
    let answered = match command_words(&rt) {
        Ok(words) => answer(&rt, words.as_slice()),
        Err(error) if error.kind() == io::ErrorKind::OutOfMemory => Err(AllocError),
        // Words that are no text are no command.
        Err(_) => answer(&rt, &[]),
    };
    ExitCode::from(match answered {
        Ok(status) => status,
        Err(AllocError) => want_of_memory(&mut StdSink::new(rt.stderr())),
    })
}
