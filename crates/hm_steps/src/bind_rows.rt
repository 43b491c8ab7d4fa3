//! The equations of a bind.
ghost use Rattle.std.specs.Prelude.{◌≡◌, IfOk};
ghost use Rattle.ml_typing.specs.Written.{Names};
ghost use Rattle.ml_typing.specs.Steps.{expression, bind, bind_step, value_span, param_parts};
ghost use Rattle.ml_typing.specs.Typing.{names_of};

use crate::pattern_rows::types_of;
use crate::terms::{and, node, one};
use crate::written::written;
use ml_tree::{Bind, Scoped};
use ml_typing::{Equation, Term, Unknown};
use oxml_base::{Items, NoMemory, Span};
use sqlite_items::{Boxed, at};
use std::alloc::Global;

/// The bound value has its pattern's type; then the body has the type of a result annotation.
pub fn bind_row(
    alloc: Global,
    s: &Scoped,
    item: u32,
    binding: &Bind,
) -> Result<Items<Equation>, NoMemory>
    ensures { IfOk result (λ es. es ≡ (bind_step (bind (names_of s.now.refs s.now.types item) binding.now)).equations) }
{
    let body = node(binding.body.id);
    let params = types_of(alloc, binding.params.as_slice())?;
    let function = Term::Function(params, Boxed::new(alloc, body)?);
    let left = Unknown::Node(binding.pat.id);
    let value = one(alloc, value_span(binding), left, function)?;
    match &binding.result {
        Some(ty) => {
            let right = written(alloc, s, item, ty)?;
            and(
                value,
                binding.body.span,
                Unknown::Node(binding.body.id),
                right,
            )
        }
        None => Ok(value),
    }
}

/// The span of a bound value, from the first parameter where there is one.
fn value_span(binding: &Bind) -> Span
    ensures { (names : Names) → result ≡ value_span (param_parts names binding.now.params) (expression names binding.now.body) }
{
    match at(binding.params.as_slice(), 0) {
        Some(first) => Span {
            start: first.pat.span.start,
            end: binding.body.span.end,
        },
        None => binding.body.span,
    }
}
