ghost use Rattle.std.specs.Prelude.{◌≤◌, All, length, IfOk, IfErr};
ghost use Rattle.ml_lexer.specs.Tokens.{IsSound};
ghost use Rattle.ml_cursor.specs.Says.{Says};
ghost use Rattle.ml_numbers.specs.Ids.{IsNumbered};
ghost use Rattle.ml_grammar.specs.Programs.{Derives, NoProgram};

use crate::item::read_items;
use ml_cursor::{ParseErr, closed_lets};
use ml_lexer::Token;
use ml_numbers::number;
use ml_parse_forms::source::Source;
use ml_tree::Program;
use std::alloc::Global;

/// The program that the tokens are. Spans count over the text.
///
/// `Refused` comes where the tokens have no tree of depth at most 1,000, by rule 10.
pub fn parse(alloc: Global, text: &[u8], tokens: &[Token]) -> Result<Program, ParseErr>
    requires texts { All (IsSound text.now) tokens.now }
    requires few { length tokens.now ≤ 1000000 }
    ensures ok { IfOk result (Derives text.now tokens.now) }
    ensures counts_up { IfOk result IsNumbered }
    ensures err { IfErr result (Says tokens.now (NoProgram text.now tokens.now)) }
{
    let Ok(lets) = closed_lets(alloc, tokens) else {
        return Err(ParseErr::NoMemory);
    };
    let source = Source {
        text,
        tokens,
        lets: lets.as_slice(),
    };
    let items = read_items(alloc, &source)?;
    match number(alloc, items.as_slice()) {
        Ok(program) => Ok(program),
        Err(_) => Err(ParseErr::NoMemory),
    }
}
