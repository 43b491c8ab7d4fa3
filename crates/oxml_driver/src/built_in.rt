//! The items that bind functions which capture nothing, as the built-in definitions do.
ghost use Rattle.std.specs.Prelude.{◌≡◌, ◌∷◌, All, List, Some};
ghost use Rattle.std.specs.Bool.{Decides};
ghost use Rattle.std.specs.Option.{option_map};
ghost use Rattle.ml_functions.specs.Table.{code_of};
ghost use Rattle.ml_tree.specs.declared.words.Words.{Words as WordsValue};
ghost use Rattle.oxml_base.specs.declared.span.Span.{Span as SpanValue};
ghost use Rattle.meaning_laws.specs.Items.{BindsFunction, BindsFunctions};
ghost use Rattle.oxml_driver.specs.Form.{AreFunctions, BindsName, CapturesNothing};

use ml_functions::{Function, Functions};
use ml_tree::{Bind, Item, ItemKind, Pat, PatKind, Scoped};

/// Whether an item binds functions which capture nothing; the functions are those of the program.
#[tactic(auto, using(crate::proofs::BuiltInLemmas::item_decides))]
pub fn binds_functions(scoped: &Scoped, functions: Functions<'_>, item: &Item) -> bool
    requires table { AreFunctions scoped.now functions }
    ensures { Decides result (BindsFunctions scoped.now item.now) }
{
    match &item.kind {
        ItemKind::Let { binds, .. } => all_bind_functions(scoped, functions, binds.as_slice()),
        _ => false,
    }
}

#[tactic(auto, using(crate::proofs::BuiltInLemmas::first_more, crate::proofs::BuiltInLemmas::one_is_other, crate::proofs::BuiltInLemmas::all_are_functions))]
fn all_bind_functions(scoped: &Scoped, functions: Functions<'_>, binds: &[Bind]) -> bool
    requires table { AreFunctions scoped.now functions }
    ensures { Decides result (All (BindsFunction scoped.now) binds.now) }
{
    for bind in binds {
        if !binds_function(scoped, functions, bind) {
            return false;
        }
    }
    true
}

/// Whether a bind has a name and parameters, and its function captures nothing.
#[tactic(auto, using(crate::proofs::BuiltInLemmas::bind_decides, crate::proofs::BuiltInLemmas::no_params_decides, crate::proofs::BuiltInLemmas::no_name_decides))]
fn binds_function(_scoped: &Scoped, functions: Functions<'_>, bind: &Bind) -> bool
    requires table { AreFunctions _scoped.now functions }
    ensures { Decides result (BindsFunction _scoped.now bind.now) }
{
    if bind.params.is_empty() || !binds_name(&bind.pat) {
        return false;
    }
    captures_nothing(functions.at(bind.pat.id))
}

/// Whether a pattern is a name alone.
fn binds_name(pat: &Pat) -> bool
    ensures { Decides result (BindsName pat.now) }
{
    matches!(&pat.kind, PatKind::Name(..))
}

/// Whether there is a function, and it captures nothing.
fn captures_nothing(function: Option<Function<'_>>) -> bool
    ensures { Decides result (CapturesNothing (option_map code_of function.entry)) }
{
    match function {
        Some(function) => function.captures.is_empty(),
        None => false,
    }
}
