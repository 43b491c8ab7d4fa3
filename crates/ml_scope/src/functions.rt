//! What the parts of functions and bindings use before their bodies.
ghost use Rattle.std.specs.Prelude.{◌≡◌, ◌&&◌, [], true, map, IfOk, OnOk};
ghost use Rattle.std.specs.Option.{option_map};
ghost use Rattle.ml_scope.specs.Names.{Known};
ghost use Rattle.ml_scope.specs.Patterns.{pattern_seen};
ghost use Rattle.ml_scope.specs.Uses.{record_named};
ghost use Rattle.ml_scope.specs.Expressions.{expr_seen, kind_seen, bind_seen, field_seen, operation_at, path_named, annotation, param_names, function_head, is_function, bind_head, bind_names, itself_where, plain_head};

use crate::binder::{Binder, binders, of_params};
use crate::binding::report_twice;
use crate::found::Found;
use crate::journal::{both, offence, offence_where};
use crate::known::Known;
use crate::patterns;
use crate::patterns::{params, pattern};
use crate::shape::Shape;
use crate::types::type_expr;
use crate::uses::record;
use ml_tree::{Bind, Expr, ExprKind, FieldExpr, Op, Param, Pat, Ref, TyExpr};
use oxml_base::{Items, NoMemory, Rule, Span};
use sqlite_items::Boxed;

/// What a construct sees of an expression.
#[cycle(expression_shapes)]
pub fn shape(e: &Expr) -> Shape
    ensures { (k : Known) → result ≡ (expr_seen k e.now).shape }
{
    kind_shape(&e.kind)
}

#[cycle(expression_shapes)]
fn kind_shape(kind: &ExprKind) -> Shape
    ensures { (k : Known) → result ≡ (kind_seen k kind.now).shape }
{
    match kind {
        ExprKind::Tuple(parts) => Shape::Tuple(parts.len()),
        ExprKind::Fun(_, _) | ExprKind::Function(_) => Shape::Function,
        ExprKind::Paren(inner) => shape(inner.get()).inside(),
        _ => Shape::Other,
    }
}

/// What a constructor sees of its operand.
pub fn given(arg: &Option<Boxed<Expr>>) -> Option<Shape>
    ensures { (k : Known) → result ≡ option_map (λ x. x.shape) (option_map (expr_seen k) arg.now) }
{
    match arg {
        None => None,
        Some(inner) => Some(shape(inner.get())),
    }
}

/// The operation that a path names. All other paths are unbound.
fn operation_at(module_name: &[u8], name: &[u8]) -> Option<Op>
    ensures { result ≡ operation_at module_name.now name.now }
{
    if module_name != "String".as_bytes() {
        return None;
    }
    if name == "length".as_bytes() {
        Some(Op::StringLength)
    } else if name == "get".as_bytes() {
        Some(Op::StringGet)
    } else {
        None
    }
}

/// A path of the node `id` and the span `whole`.
pub fn path(
    known: &Known,
    id: u32,
    whole: Span,
    module_name: Span,
    name: Span,
    journal: &mut Items<Found>,
) -> Result<(), NoMemory>
    ensures { OnOk result (journal.new ≡ path_named known.now id whole module_name name journal.old) }
{
    match operation_at(known.spelling(module_name), known.spelling(name)) {
        None => offence(Rule::UnboundValue, whole, journal),
        Some(op) => Ok(journal.push(Found::Names(id, Ref::Operation(op)))?),
    }
}

/// The names of the fields of a record expression.
fn field_names(known: &Known, list: &[FieldExpr]) -> Result<Items<Span>, NoMemory>
    ensures { IfOk result (λ names. names ≡ map (λ f. f.name) (map (field_seen known.now) list.now)) }
{
    let mut names = Items::new(known.alloc());
    for one in list {
        names.push(one.name)?;
    }
    Ok(names)
}

/// The declaration of a record expression.
pub fn record_expression(
    known: &Known,
    id: u32,
    span: Span,
    list: &[FieldExpr],
    journal: &mut Items<Found>,
) -> Result<(), NoMemory>
    ensures { OnOk result (journal.new ≡ record_named known.now id span true (map (λ f. f.name) (map (field_seen known.now) list.now)) journal.old) }
{
    let names = field_names(known, list)?;
    record(known, id, span, true, names.as_slice(), journal)
}

/// A written type of a result.
pub fn annotation(
    known: &Known,
    ty: &Option<TyExpr>,
    journal: &mut Items<Found>,
) -> Result<(), NoMemory>
    ensures { OnOk result (journal.new ≡ annotation known.now ty.now journal.old) }
{
    match ty {
        None => Ok(()),
        Some(ty) => type_expr(known, ty, journal),
    }
}

/// The names that the parameters of a function bind.
pub fn param_names(known: &Known, list: &[Param]) -> Result<Items<Binder>, NoMemory>
    ensures { IfOk result (λ names. names ≡ param_names known.now list.now) }
{
    let mut names = Items::new(known.alloc());
    of_params(list, &mut names)?;
    Ok(names)
}

/// A function of the node `id`, up to its body; `names` are those of its parameters.
pub fn function_head(
    known: &Known,
    id: u32,
    list: &[Param],
    names: &[Binder],
    result_type: &Option<TyExpr>,
    journal: &mut Items<Found>,
) -> Result<(), NoMemory>
    requires { names.now ≡ param_names known.now list.now }
    ensures { OnOk result (journal.new ≡ function_head known.now id list.now result_type.now journal.old) }
{
    journal.push(Found::Opens(id))?;
    params(known, list, journal)?;
    report_twice(known, names, journal)?;
    annotation(known, result_type, journal)
}

/// Whether a binding is a function, by the shapes of its pattern and its value.
fn is_function(list: &[Param], pat: Shape, body: Shape) -> bool
    ensures { result ≡ is_function list.now pat body }
{
    list.len() > 0 || (pat.is_name() && body.is_function())
}

/// The names that the bindings of one `let` bind.
pub fn bind_names(known: &Known, list: &[Bind]) -> Result<Items<Binder>, NoMemory>
    ensures { IfOk result (λ names. names ≡ bind_names known.now (map (bind_seen known.now) list.now)) }
{
    let mut names = Items::new(known.alloc());
    for one in list {
        binders(&one.pat, &mut names)?;
    }
    Ok(names)
}

/// A binding up to its value: a recursive one is a function.
pub fn bind_head(
    known: &Known,
    recursive: bool,
    one: &Bind,
    journal: &mut Items<Found>,
) -> Result<(), NoMemory>
    ensures { OnOk result (journal.new ≡ bind_head known.now recursive one.now.pat one.now.params (expr_seen known.now one.now.body).shape journal.old) }
{
    let function = is_function(
        one.params.as_slice(),
        patterns::shape(&one.pat),
        shape(&one.body),
    );
    let wrong = both(recursive, !function);
    offence_where(wrong, Rule::LeftOut, one.pat.span, journal)?;
    pattern(known, &one.pat, journal)?;
    Ok(())
}

/// The mark of a recursive binding whose value is a function.
fn itself(recursive_function: bool, node: u32, journal: &mut Items<Found>) -> Result<(), NoMemory>
    ensures { OnOk result (journal.new ≡ itself_where recursive_function node journal.old) }
{
    if recursive_function {
        journal.push(Found::Itself(node))?;
    }
    Ok(())
}

/// What stands between the pattern and the value of a binding without parameters.
pub fn plain_head(
    known: &Known,
    recursive: bool,
    one: &Bind,
    journal: &mut Items<Found>,
) -> Result<(), NoMemory>
    ensures { OnOk result (journal.new ≡ plain_head known.now recursive one.now.pat one.now.result (expr_seen known.now one.now.body).shape journal.old) }
{
    let function = is_function(&[], patterns::shape(&one.pat), shape(&one.body));
    itself(both(recursive, function), one.pat.id, journal)?;
    annotation(known, &one.result, journal)
}
