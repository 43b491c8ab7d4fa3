//! From the bytes of a source to its program.
ghost use Rattle.std.specs.Prelude.{◌≡◌, ◌+◌, ◌++◌, ◌≤◌, IfErr, IfOk, List, length, All};
ghost use Rattle.ml_lexer.specs.Tokens.{IsSound};
ghost use Rattle.ml_numbers.specs.Ids.{IsNumbered};
ghost use Rattle.oxml_driver.specs.Prelude.{prelude};
ghost use Rattle.oxml_driver.specs.Build.{NotCompiled, most_bytes};
ghost use Rattle.oxml_driver.specs.Source.{AreTokens, HasTokens, IsProgram, LexFails, built_in_part, file_part, program_text};

use crate::compile::CompileErr;
use ml_lexer::{LexErr, Token, lex};
use ml_parser::{PRELUDE, ParseErr, parse};
use ml_tree::Program;
use oxml_base::{Items, NoMemory, Span};
use std::alloc::Global;

/// The text of the program of a source: its bytes, and behind them those of the built-in definitions.
pub fn program_text(alloc: Global, source: &[u8]) -> Result<Vec<u8>, NoMemory>
    requires { length source.now ≤ most_bytes }
    ensures { IfOk result (λ text. text.items ≡ program_text source.now) }
{
    let mut text = Vec::new(alloc);
    text.extend_from_slice(source)?;
    text.extend_from_slice(PRELUDE)?;
    Ok(text)
}

/// The program of a source, given its text; or the first rule that the source violates, or limit
/// that it passes, in the order of the compiler.
pub fn read_program(alloc: Global, source: &[u8], text: &[u8]) -> Result<Program, CompileErr>
    requires short { length source.now ≤ most_bytes }
    requires text { text.now ≡ program_text source.now }
    ensures ok { IfOk result (IsProgram source.now) }
    ensures numbered { IfOk result IsNumbered }
    ensures err { IfErr result (NotCompiled source.now) }
{
    let tokens = all_tokens(alloc, source, text)?;
    match parse(alloc, text, tokens.as_slice()) {
        Ok(program) => Ok(program),
        Err(ParseErr::Refused(refusal)) => Err(CompileErr::Refused(refusal)),
        Err(ParseErr::NoMemory) => Err(CompileErr::NoMemory),
    }
}

/// The tokens of the program: those of the built-in definitions, and behind them those of the file,
/// whose faults come first.
fn all_tokens(alloc: Global, source: &[u8], text: &[u8]) -> Result<Items<Token>, CompileErr>
    requires short { length source.now ≤ most_bytes }
    requires text { text.now ≡ program_text source.now }
    ensures ok { IfOk result (AreTokens source.now) }
    ensures sound { IfOk result (All (IsSound text.now)) }
    ensures few { IfOk result (λ tokens. length tokens ≤ 400_000) }
    ensures err { IfErr result (NotCompiled source.now) }
{
    let file = file_tokens(alloc, source, text)?;
    let built_in = built_in_tokens(alloc, source, text, file.as_slice())?;
    match joined(alloc, built_in.as_slice(), file.as_slice()) {
        Ok(tokens) => Ok(tokens),
        Err(NoMemory) => Err(CompileErr::NoMemory),
    }
}

fn file_tokens(alloc: Global, source: &[u8], text: &[u8]) -> Result<Items<Token>, CompileErr>
    requires short { length source.now ≤ most_bytes }
    requires text { text.now ≡ program_text source.now }
    ensures ok { IfOk result (HasTokens (program_text source.now) (file_part source.now)) }
    ensures sound { IfOk result (All (IsSound text.now)) }
    ensures err { IfErr result (NotCompiled source.now) }
{
    let part = Span {
        start: 0,
        end: source.len() as u32,
    };
    tokens_of(alloc, text, part)
}

/// The tokens of the built-in definitions, once the file has its own.
fn built_in_tokens(
    alloc: Global,
    source: &[u8],
    text: &[u8],
    _file: &[Token],
) -> Result<Items<Token>, CompileErr>
    requires short { length source.now ≤ most_bytes }
    requires text { text.now ≡ program_text source.now }
    requires file { HasTokens (program_text source.now) (file_part source.now) _file.now }
    ensures ok { IfOk result (HasTokens (program_text source.now) (built_in_part source.now)) }
    ensures sound { IfOk result (All (IsSound text.now)) }
    ensures err { IfErr result (NotCompiled source.now) }
{
    let part = Span {
        start: source.len() as u32,
        end: text.len() as u32,
    };
    tokens_of(alloc, text, part)
}

/// The tokens of a part of the text.
fn tokens_of(alloc: Global, text: &[u8], part: Span) -> Result<Items<Token>, CompileErr>
    requires order { part.start ≤ part.end }
    requires within { part.end ≤ length text.now }
    ensures ok { IfOk result (HasTokens text.now part) }
    ensures sound { IfOk result (All (IsSound text.now)) }
    ensures err { IfErr result (LexFails text.now part) }
{
    match lex(alloc, text, part) {
        Ok(tokens) => Ok(tokens),
        Err(LexErr::Refused(refusal)) => Err(CompileErr::Refused(refusal)),
        Err(LexErr::Limit(limit)) => Err(CompileErr::Limit(limit, None)),
        Err(LexErr::NoMemory) => Err(CompileErr::NoMemory),
    }
}

/// Two lists of tokens, one behind the other.
fn joined(alloc: Global, front: &[Token], behind: &[Token]) -> Result<Items<Token>, NoMemory>
    requires { length front.now + length behind.now ≤ 400_000 }
    ensures { IfOk result (λ tokens. tokens ≡ front.now ++ behind.now) }
{
    let mut tokens = Vec::new(alloc);
    tokens.extend_from_slice(front)?;
    tokens.extend_from_slice(behind)?;
    Ok(Items::from_vec(tokens))
}
