//! Items: the bindings and the declarations of types at the top of a program.
ghost use Rattle.std.specs.Prelude.{◌≡◌, drop, All, IfOk, IfErr};
ghost use Rattle.ml_lexer.specs.Tokens.{IsSound};
ghost use Rattle.ml_cursor.specs.Says.{Says};
ghost use Rattle.ml_numbers.specs.Numbered.{numbered};
ghost use Rattle.ml_grammar.specs.declared.looks.ItemLead.{ItemLead};
ghost use Rattle.ml_grammar.specs.Looks.{item_by, item_lead};
ghost use Rattle.ml_grammar.specs.Trees.{end_behind, end_of_bind};
ghost use Rattle.ml_grammar.specs.Programs.{AnItemBy, IsItem, Derives, NoProgram};
ghost use Rattle.ml_grammar.specs.Readings.{AreDeep};

use crate::bind::read_binds;
use ml_cursor::{Front, ParseErr, accept, extent, front_at, pass, refusal_at, span_at};
use ml_grammar::ItemLead;
use ml_lexer::Token;
use ml_parse_forms::source::Source;
use ml_parse_types::read_decls;
use ml_tree::{Bind, Item, ItemKind};
use oxml_base::{Items, Span};
use std::alloc::Global;

/// The most expressions and patterns on a path below a bind.
const MAX_DEPTH: u32 = 1000;

/// An item. Its number is given once the whole program is read.
fn item(span: Span, kind: ItemKind) -> Item
    ensures { result ≡ record { id = 0; span = span; kind = kind } }
{
    Item { id: 0, span, kind }
}

/// Where the last bind ends.
fn end_of_last(binds: &[Bind]) -> u32
    ensures { result ≡ end_behind end_of_bind 0 binds.now }
{
    let mut end = 0;
    for bind in binds {
        end = bind.body.span.end;
    }
    end
}

/// `let [rec] bind (and bind)*`
fn read_let_item(alloc: Global, source: &Source, at: &mut usize) -> Result<Item, ParseErr>
    requires texts { All (IsSound source.now.text.now) source.now.tokens.now }
    ensures ok { IfOk result (IsItem source.now.text.now ItemLead.Let (drop at.old source.now.tokens.now) (drop at.new source.now.tokens.now)) }
    ensures err { IfErr result (Says source.now.tokens.now (AreDeep (AnItemBy source.now.text.now ItemLead.Let (drop at.old source.now.tokens.now)) 1000)) }
{
    let start = span_at(source.tokens, *at).start;
    pass(source.tokens, at);
    let recursive = accept(source.tokens, at, Front::Rec);
    let binds = read_binds(alloc, source, at, MAX_DEPTH)?;
    let end = end_of_last(binds.tree.as_slice());
    let kind = ItemKind::Let {
        recursive,
        binds: binds.tree,
    };
    Ok(item(Span { start, end }, kind))
}

/// `type decl (and decl)*`
fn read_types_item(alloc: Global, source: &Source, at: &mut usize) -> Result<Item, ParseErr>
    ensures ok { IfOk result (IsItem source.now.text.now ItemLead.Types (drop at.old source.now.tokens.now) (drop at.new source.now.tokens.now)) }
    ensures err { IfErr result (Says source.now.tokens.now (AreDeep (AnItemBy source.now.text.now ItemLead.Types (drop at.old source.now.tokens.now)) 1000)) }
{
    let start = *at;
    pass(source.tokens, at);
    let decls = read_decls(alloc, source.tokens, at)?;
    Ok(item(extent(source.tokens, start, *at), ItemKind::Types(decls)))
}

fn item_by(front: Front) -> ItemLead
    ensures { result ≡ item_by front }
{
    match front {
        Front::Nothing => ItemLead::End,
        Front::SemiSemi => ItemLead::SemiSemi,
        Front::Let => ItemLead::Let,
        Front::TypeWord => ItemLead::Types,
        _ => ItemLead::Other,
    }
}

/// What an item at this place begins with.
#[tactic(auto, unfolding(ml_grammar::specs::Looks::item_lead))]
fn item_at(tokens: &[Token], at: usize) -> ItemLead
    ensures { result ≡ item_lead (drop at tokens.now) }
{
    item_by(front_at(tokens, at))
}

/// The item at this place.
#[tactic(auto, using(ml_grammar::proofs::Programs::item_read, ml_grammar::proofs::Programs::item_deep, ml_grammar::proofs::Programs::no_item_here))]
fn read_item(alloc: Global, source: &Source, at: &mut usize) -> Result<Item, ParseErr>
    requires texts { All (IsSound source.now.text.now) source.now.tokens.now }
    ensures ok { IfOk result (IsItem source.now.text.now (item_lead (drop at.old source.now.tokens.now)) (drop at.old source.now.tokens.now) (drop at.new source.now.tokens.now)) }
    ensures err { IfErr result (Says source.now.tokens.now (AreDeep (AnItemBy source.now.text.now (item_lead (drop at.old source.now.tokens.now)) (drop at.old source.now.tokens.now)) 1000)) }
{
    match item_at(source.tokens, *at) {
        ItemLead::Let => Ok(read_let_item(alloc, source, at)?),
        ItemLead::Types => Ok(read_types_item(alloc, source, at)?),
        _ => Err(ParseErr::Refused(refusal_at(source.tokens, *at))),
    }
}

/// All items, with `;;` among them.
pub fn read_items(alloc: Global, source: &Source) -> Result<Items<Item>, ParseErr>
    requires texts { All (IsSound source.now.text.now) source.now.tokens.now }
    ensures ok { IfOk result (λ items. Derives source.now.text.now source.now.tokens.now (numbered items)) }
    ensures err { IfErr result (Says source.now.tokens.now (NoProgram source.now.text.now source.now.tokens.now)) }
{
    let mut list = Items::new(alloc);
    let mut at = 0;
    'items: while at < source.tokens.len() {
        if accept(source.tokens, &mut at, Front::SemiSemi) {
            continue;
        }
        let item = read_item(alloc, source, &mut at)?;
        list.push(item)?;
    }
    Ok(list)
}
