use ml_lexer::{LexErr, lex};
use ml_parser::{ParseErr, parse};
use ml_tree::Program;
use oxml_base::{Limit, Refusal, Span};
use std::alloc::Global;

/// Why a text is no program.
#[derive(Clone, Copy, Debug, PartialEq, Eq)]
pub enum NoProgram {
    Refused(Refusal),
    Limit(Limit),
    NoMemory,
    /// Its bytes are more than a span can count.
    TooLong,
}

/// The tree of a whole text.
pub fn read(alloc: Global, text: &[u8]) -> Result<Program, NoProgram> {
    let Ok(end) = u32::try_from(text.len()) else {
        return Err(NoProgram::TooLong);
    };
    let tokens = match lex(alloc, text, Span { start: 0, end }) {
        Ok(tokens) => tokens,
        Err(LexErr::Refused(refusal)) => return Err(NoProgram::Refused(refusal)),
        Err(LexErr::Limit(limit)) => return Err(NoProgram::Limit(limit)),
        Err(LexErr::NoMemory) => return Err(NoProgram::NoMemory),
    };
    match parse(alloc, text, tokens.as_slice()) {
        Ok(program) => Ok(program),
        Err(ParseErr::Refused(refusal)) => Err(NoProgram::Refused(refusal)),
        Err(ParseErr::NoMemory) => Err(NoProgram::NoMemory),
    }
}
