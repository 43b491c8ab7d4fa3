//! Lists of expressions: sequences, tuples, elements of a list literal, arguments.
ghost use Rattle.std.specs.Prelude.{◌≡◌, drop, if◌then◌else◌, All, IfOk, IfErr};
ghost use Rattle.ml_lexer.specs.Tokens.{IsSound};
ghost use Rattle.ml_cursor.specs.Fronts.{front};
ghost use Rattle.ml_cursor.specs.Says.{Says};
ghost use Rattle.ml_grammar.specs.Looks.{is_comma, joins_operands, begins_statement, behind_statements, goes_on, next, behind};
ghost use Rattle.ml_grammar.specs.Grammar.{exprs, Lists};
ghost use Rattle.ml_grammar.specs.Readings.{IsRead, AreDeep};

use crate::expression::read_part;
use ml_cursor::ParseErr;
use ml_grammar::ListKind;
use ml_parse_forms::found::{Found, no_parts, with_expression};
use ml_parse_forms::lists::goes_on;
use ml_parse_forms::source::Source;
use ml_tree::Expr;
use oxml_base::Items;
use std::alloc::Global;

/// The parts of a list, one or more.
#[cycle(expressions)]
#[inline(never)]
pub fn read_list(
    kind: ListKind,
    alloc: Global,
    source: &Source,
    at: &mut usize,
    left: u32,
) -> Result<Found<Items<Expr>>, ParseErr>
    requires texts { All (IsSound source.now.text.now) source.now.tokens.now }
    ensures ok { IfOk result (λ f. IsRead (Lists source.now.text.now (exprs kind) (drop at.old source.now.tokens.now)) left f.tree f.depth (drop at.new source.now.tokens.now)) }
    ensures err { IfErr result (Says source.now.tokens.now (AreDeep (Lists source.now.text.now (exprs kind) (drop at.old source.now.tokens.now)) left)) }
{
    let mut list = no_parts(alloc);
    'parts: loop {
        let part = read_part(kind, alloc, source, at, left)?;
        list = with_expression(list, part)?;
        if !goes_on(kind, source, at) {
            return Ok(list);
        }
    }
}
