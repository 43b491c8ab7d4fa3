//! The items that can be compiled today: `let () = print_string TEXT`.
ghost use Rattle.std.specs.Prelude.{◌≡◌, ◌≤◌, ℕ, List, IfErr, IfNone, IfOk, IfSome, OnOk, Some, ◌++◌, ◌∷◌, []};
ghost use Rattle.std.specs.Bool.{Decides};
ghost use Rattle.oxml_base.specs.declared.literal.Lit.{Lit as Literal};
ghost use Rattle.ml_tree.specs.declared.expr.Bind.{Bind as Binding};
ghost use Rattle.ml_tree.specs.declared.expr.ExprKind.TheVariants.{Text};
ghost use Rattle.ml_tree.specs.declared.reference.Op.TheVariants.{PrintString};
ghost use Rattle.ml_tree.specs.declared.reference.Ref.TheVariants.{Operation};
ghost use Rattle.meaning_laws.specs.Items.{IsOnlyBind, IsPrintString, IsUnit, Prints, PrintsText};
ghost use Rattle.oxml_driver.specs.Form.{AddsText, AreFunctions, FormFails, ItemFails, IsForm, PrintTexts};
ghost use Rattle.oxml_driver.specs.Printer.{bytes_of};

use crate::built_in::binds_functions;
use bumpalo::Bump;
use ml_functions::{Functions, functions};
use ml_tree::{Bind, ConName, Expr, ExprKind, Item, ItemKind, Op, Pat, PatKind, Ref, Scoped};
use ml_words::target;
use oxml_base::{Items, Lit, NoMemory, Span};
use std::alloc::Global;

/// Why the texts of a file are not had.
#[derive(Clone, Copy, Debug)]
pub enum FormErr {
    /// The first item of the file that prints no text has this span.
    LeftOut(Span),
    NoMemory,
}

/// The texts that the items of the file print, in order. The file takes up `size` bytes at the front
/// of the text over which the spans count.
pub fn printed_texts(alloc: Global, scoped: &Scoped, size: u32) -> Result<Items<Lit>, FormErr>
    ensures ok { IfOk result (λ lits. PrintTexts scoped.now size scoped.now.program.items (bytes_of lits)) }
    ensures err { IfErr result (FormFails scoped.now size scoped.now.program.items) }
{
    let bump = Bump::new(alloc);
    match functions(alloc, &bump, scoped) {
        Ok(functions) => {
            let items = scoped.program().items.as_slice();
            item_texts(alloc, scoped, functions, size, items)
        }
        Err(NoMemory) => Err(FormErr::NoMemory),
    }
}

/// The texts that items print, in order.
fn item_texts(
    alloc: Global,
    scoped: &Scoped,
    functions: Functions<'_>,
    size: u32,
    items: &[Item],
) -> Result<Items<Lit>, FormErr>
    requires table { AreFunctions scoped.now functions }
    ensures ok { IfOk result (λ lits. PrintTexts scoped.now size items.now (bytes_of lits)) }
    ensures err { IfErr result (FormFails scoped.now size items.now) }
{
    let mut texts = Items::new(alloc);
    for item in items {
        if let Err(error) = add_text(alloc, &mut texts, scoped, functions, size, item) {
            return Err(error);
        }
    }
    Ok(texts)
}

/// Puts the text that an item of the file prints behind the others.
fn add_text(
    alloc: Global,
    texts: &mut Items<Lit>,
    scoped: &Scoped,
    functions: Functions<'_>,
    size: u32,
    item: &Item,
) -> Result<(), FormErr>
    requires table { AreFunctions scoped.now functions }
    ensures ok { OnOk result (AddsText scoped.now size item.now (bytes_of texts.old) (bytes_of texts.new)) }
    ensures err { IfErr result (ItemFails scoped.now size item.now) }
{
    match form_of(scoped, functions, size, item) {
        Form::BuiltIn => Ok(()),
        Form::Other => Err(FormErr::LeftOut(item.span)),
        Form::Printing(literal) => match push_copy(alloc, texts, literal) {
            Ok(()) => Ok(()),
            Err(NoMemory) => Err(FormErr::NoMemory),
        },
    }
}

/// What an item is.
#[derive(Clone, Copy, Debug)]
enum Form<'a> {
    /// A built-in definition.
    BuiltIn,
    /// One of the file that prints a text.
    Printing(&'a Lit),
    /// Another one.
    Other,
}

fn form_of<'a>(scoped: &Scoped, functions: Functions<'_>, size: u32, item: &'a Item) -> Form<'a>
    requires table { AreFunctions scoped.now functions }
    ensures { IsForm scoped.now size item.now result }
{
    if item.span.start >= size {
        return built_in_form(scoped, functions, size, item);
    }
    match printed(scoped, item) {
        Some(literal) => Form::Printing(literal),
        None => Form::Other,
    }
}

/// What an item is that is not of the file.
fn built_in_form<'a>(
    scoped: &Scoped,
    functions: Functions<'_>,
    size: u32,
    item: &'a Item,
) -> Form<'a>
    requires table { AreFunctions scoped.now functions }
    requires behind { size ≤ item.now.span.start }
    ensures { IsForm scoped.now size item.now result }
{
    if binds_functions(scoped, functions, item) {
        return Form::BuiltIn;
    }
    Form::Other
}

/// The text that an item prints; `None` where it is not `let () = print_string TEXT`.
fn printed<'a>(scoped: &Scoped, item: &'a Item) -> Option<&'a Lit>
    ensures some { IfSome result (λ literal. PrintsText scoped.now item.now literal.now.bytes) }
    ensures none { IfNone result ((bytes : List ℕ) → PrintsText scoped.now item.now bytes → ⊥) }
{
    let bind = only_bind(item)?;
    if !is_unit(&bind.pat) {
        return None;
    }
    printed_by(scoped, &bind.body)
}

/// The bind of an item `let .. = ..` that has one, without `rec`, parameters and a written type.
fn only_bind(item: &Item) -> Option<&Bind>
    ensures some { IfSome result (λ bind. IsOnlyBind item.now bind.now) }
    ensures none { IfNone result ((bind : Binding) → IsOnlyBind item.now bind → ⊥) }
{
    match &item.kind {
        ItemKind::Let {
            recursive: false,
            binds,
        } => match binds.as_slice() {
            [bind] if bind.params.is_empty() && bind.result.is_none() => Some(bind),
            _ => None,
        },
        _ => None,
    }
}

/// Whether a pattern is `()`.
fn is_unit(pat: &Pat) -> bool
    ensures { Decides result (IsUnit pat.now) }
{
    matches!(
        &pat.kind,
        PatKind::Con {
            name: ConName::Unit,
            arg: None,
        }
    )
}

/// The text that `print_string TEXT` prints; `None` for any other expression.
fn printed_by<'a>(scoped: &Scoped, e: &'a Expr) -> Option<&'a Lit>
    ensures some { IfSome result (λ literal. Prints scoped.now e.now literal.now.bytes) }
    ensures none { IfNone result ((bytes : List ℕ) → Prints scoped.now e.now bytes → ⊥) }
{
    match &e.kind {
        ExprKind::Apply(head, arguments) => match arguments.as_slice() {
            [argument] if is_print_string(scoped, head.get()) => literal_of(argument),
            _ => None,
        },
        _ => None,
    }
}

/// Whether an expression is a name that stands for `print_string`.
fn is_print_string(scoped: &Scoped, e: &Expr) -> bool
    ensures { Decides result (IsPrintString scoped.now e.now) }
{
    match &e.kind {
        ExprKind::Name(_) => prints_string(target(scoped, e.id)),
        _ => false,
    }
}

/// Whether a node that names this names `print_string`.
fn prints_string(target: Option<Ref>) -> bool
    ensures { Decides result (target ≡ Some (Operation PrintString)) }
{
    matches!(target, Some(Ref::Operation(Op::PrintString)))
}

/// The literal that an expression is.
fn literal_of(e: &Expr) -> Option<&Lit>
    ensures some { IfSome result (λ literal. e.now.kind ≡ Text literal.now) }
    ensures none { IfNone result ((literal : Literal) → e.now.kind ≡ Text literal → ⊥) }
{
    match &e.kind {
        ExprKind::Text(literal) => Some(literal),
        _ => None,
    }
}

/// Puts a copy of a literal behind the others.
fn push_copy(alloc: Global, texts: &mut Items<Lit>, literal: &Lit) -> Result<(), NoMemory>
    ensures { OnOk result (bytes_of texts.new ≡ bytes_of texts.old ++ (literal.now.bytes ∷ [])) }
{
    let mut bytes = Vec::new(alloc);
    bytes.extend_from_slice(literal.bytes.as_slice())?;
    texts.push(Lit {
        bytes: Items::from_vec(bytes),
    })?;
    Ok(())
}
