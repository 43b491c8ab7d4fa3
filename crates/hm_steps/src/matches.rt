//! The equations of what matches a value with patterns.
ghost use Rattle.std.specs.Prelude.{◌≡◌, [], ◌∷◌, ◌++◌, map, IfOk};
ghost use Rattle.std.specs.Option.{option_map};
ghost use Rattle.ml_typing.specs.declared.equation.Unknown.TheVariants.{Node};
ghost use Rattle.ml_typing.specs.declared.equation.Term.TheVariants.{Of, Function};
ghost use Rattle.ml_typing.specs.Written.{Names};
ghost use Rattle.ml_typing.specs.Rows.{equation, at};
ghost use Rattle.ml_typing.specs.Steps.{expression, arm, arms_are, guard_is};
ghost use Rattle.hm_steps.specs.Blocks.{arm_is};

use crate::expression_rows::part_is;
use crate::terms::{bool, fresh, one, single};
use ml_tree::{Arm, Expr};
use ml_typing::{Equation, Term, Unknown};
use oxml_base::{Items, NoMemory, Span};
use sqlite_items::Boxed;
use std::alloc::Global;

/// Each guard is `bool`, and each body has the result's type.
pub fn arms_are(
    list: Items<Equation>,
    alloc: Global,
    arms: &[Arm],
    whole: Unknown,
) -> Result<Items<Equation>, NoMemory>
    ensures { IfOk result (λ es. (names : Names) → es ≡ list ++ arms_are (Of whole) (map (arm names) arms.now)) }
{
    let mut all = list;
    for one in arms {
        all = arm_is(all, alloc, one, whole)?;
    }
    Ok(all)
}

fn arm_is(
    list: Items<Equation>,
    alloc: Global,
    one: &Arm,
    whole: Unknown,
) -> Result<Items<Equation>, NoMemory>
    ensures { IfOk result (λ es. (names : Names) → es ≡ list ++ arm_is (Of whole) (arm names one.now)) }
{
    let guarded = guard_is(list, alloc, &one.guard)?;
    part_is(guarded, &one.body, Term::Of(whole))
}

fn guard_is(
    list: Items<Equation>,
    alloc: Global,
    guard: &Option<Expr>,
) -> Result<Items<Equation>, NoMemory>
    ensures { IfOk result (λ es. (names : Names) → es ≡ list ++ guard_is (option_map (expression names) guard.now)) }
{
    match guard {
        Some(e) => part_is(list, e, bool(alloc)),
        None => Ok(list),
    }
}

/// A function of one parameter that is matched: its type, then the guards and bodies of its arms.
pub fn function_row(
    alloc: Global,
    n: u32,
    span: Span,
    arms: &[Arm],
) -> Result<Items<Equation>, NoMemory>
    ensures { IfOk result (λ es. (names : Names) → es ≡ equation span (Node n) (Function (at n 0 ∷ []) (at n 1)) ∷ arms_are (at n 1) (map (arm names) arms.now)) }
{
    let params = single(alloc, fresh(n, 0))?;
    let arrow = Term::Function(params, Boxed::new(alloc, fresh(n, 1))?);
    let own = one(alloc, span, Unknown::Node(n), arrow)?;
    arms_are(own, alloc, arms, Unknown::Fresh(n, 1))
}
