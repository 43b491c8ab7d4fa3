//! The equations of an application.
ghost use Rattle.std.specs.Prelude.{◌≡◌, ◌<◌, ◌∷◌, ◌++◌, map, length, IfOk};
ghost use Rattle.ml_typing.specs.declared.equation.Unknown.TheVariants.{Node};
ghost use Rattle.ml_typing.specs.declared.equation.Term.TheVariants.{Of, Function};
ghost use Rattle.ml_typing.specs.Written.{Names};
ghost use Rattle.ml_typing.specs.Rows.{node_is};
ghost use Rattle.ml_typing.specs.Steps.{expression, ats, args_are};

use crate::expression_rows::part_is;
use crate::terms::{fresh, node};
use ml_tree::Expr;
use ml_typing::{Equation, Term};
use oxml_base::{Items, NoMemory};
use sqlite_items::Boxed;
use std::alloc::Global;

/// The function's type is an arrow from one type for each argument to the node's type; then each
/// argument has its type.
pub fn apply_row(
    alloc: Global,
    n: u32,
    function: &Expr,
    args: &[Expr],
) -> Result<Items<Equation>, NoMemory>
    ensures { IfOk result (λ es. (names : Names) → es ≡ node_is (expression names function.now) (Function (ats n 0 (map (expression names) args.now)) (Of (Node n))) ∷ args_are n 0 (map (expression names) args.now)) }
{
    // A tree has fewer than 2^32 nodes.
    if args.len() > 4294967295 {
        return Err(NoMemory);
    }
    let types = fresh_types(alloc, n, args)?;
    let arrow = Term::Function(types, Boxed::new(alloc, node(n))?);
    let first = part_is(Items::new(alloc), function, arrow)?;
    arg_types(first, n, args)
}

/// One fresh type for each argument.
fn fresh_types(alloc: Global, n: u32, args: &[Expr]) -> Result<Items<Term>, NoMemory>
    requires { length args.now < 4294967296 }
    ensures { IfOk result (λ ts. (names : Names) → ts ≡ ats n 0 (map (expression names) args.now)) }
{
    let mut types = Items::new(alloc);
    for number in 0..args.len() {
        types.push(fresh(n, number as u32))?;
    }
    Ok(types)
}

/// Each argument has its fresh type.
fn arg_types(list: Items<Equation>, n: u32, args: &[Expr]) -> Result<Items<Equation>, NoMemory>
    requires { length args.now < 4294967296 }
    ensures { IfOk result (λ es. (names : Names) → es ≡ list ++ args_are n 0 (map (expression names) args.now)) }
{
    let mut all = list;
    for number in 0..args.len() {
        all = part_is(all, &args[number], fresh(n, number as u32))?;
    }
    Ok(all)
}
