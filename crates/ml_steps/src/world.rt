//! What stays as it is while an item is evaluated.
ghost use Rattle.std.specs.Prelude.{◌≡◌, length, slice_get};
ghost use Rattle.std.specs.Option.{option_map};
ghost use Rattle.ml_meaning.specs.declared.event.Event.{Event};
ghost use Rattle.ml_meaning.specs.Evaluation as m;
ghost use Rattle.ml_meaning.specs.Programs.{count_fields, constructors_of};
ghost use Rattle.ml_words.specs.Named.{targets};
ghost use Rattle.ml_values.specs.Shown.{value, code_of};
ghost use Rattle.ml_steps.specs.Worlds as w;

use ml_functions::Functions;
use ml_tree::{Decl, DeclBody, Ref};
use ml_values::{Code, Tools, Word};
use ml_words::{operation_arity, target};

/// A declaration of the program.
#[derive(Clone, Copy)]
pub struct Written<'a> {
    pub decl: &'a Decl,
}

/// The program with its tables, and the values of the names that the items before bound.
#[derive(Clone, Copy)]
pub struct World<'t, 'a> {
    pub tools: Tools<'a>,
    pub functions: Functions<'a>,
    /// The written declarations, in the order of the source.
    pub decls: &'a [Written<'a>],
    /// The binder of the function that `@` applies.
    pub append: u32,
    /// The values of the top-level names, by the numbers of their binders.
    pub tops: &'t [Option<Word<'a>>],
}

/// The number of the first declaration that is written.
const WRITTEN: u32 = 7;

const LIST: u32 = 5;

const OPTION: u32 = 6;

fn predefined_fields(decl: u32, place: u32) -> usize
    ensures { result ≡ w.predefined_fields decl place }
{
    if place != 1 {
        return 0;
    }
    if decl == LIST {
        return 2;
    }
    if decl == OPTION {
        return 1;
    }
    0
}

fn written_fields(body: &DeclBody, place: u32) -> usize
    ensures { result ≡ count_fields (slice_get (constructors_of body.now) place) }
{
    match body {
        DeclBody::Variant(list) => match list.get(place as usize) {
            Some(con) => con.args.len(),
            None => 0,
        },
        _ => 0,
    }
}

/// How many fields a constructor has, by its declaration and place.
fn field_total(decls: &[Written], decl: u32, place: u32) -> usize
    ensures { result ≡ w.field_total decls.now decl place }
{
    if decl < WRITTEN {
        return predefined_fields(decl, place);
    }
    match decls.get((decl - WRITTEN) as usize) {
        Some(written) => written_fields(&written.decl.body, place),
        None => 0,
    }
}

impl<'t, 'a> World<'t, 'a> {
    /// How many fields the constructor has that a node names.
    pub fn field_count(self, node: u32) -> usize
        ensures { result ≡ m.field_count Event (w.setting_of self.entry) (targets self.entry.tools.scoped.now node) }
    {
        match target(self.tools.scoped, node) {
            Some(Ref::Con(decl, place)) => field_total(self.decls, decl, place),
            _ => 1,
        }
    }

    /// How many arguments a function takes; 0 where there is none of its node.
    pub fn arity(self, code: Code) -> usize
        ensures { result ≡ m.arity Event (w.setting_of self.entry) (code_of code) }
    {
        match code {
            Code::Primitive(op) => operation_arity(op),
            Code::Source(node) => match self.functions.at(node) {
                Some(function) => function.arity(),
                None => 0,
            },
        }
    }

    /// The words of the call stack that a call weighs.
    pub fn weight(self, code: Code) -> u64
        ensures { result ≡ m.call_weight Event (w.setting_of self.entry) (code_of code) }
    {
        match code {
            Code::Primitive(_) => 64,
            Code::Source(node) => match self.functions.at(node) {
                Some(function) => function.weight,
                None => 0,
            },
        }
    }

    /// The value of a top-level name.
    pub fn top(self, name: u32) -> Option<Word<'a>>
        ensures { option_map value result ≡ w.top_value (slice_get self.entry.tops.now name) }
    {
        match self.tops.get(name as usize) {
            Some(word) => *word,
            None => None,
        }
    }
}
