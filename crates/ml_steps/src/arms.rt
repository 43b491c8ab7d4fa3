//! The arms of a match, and their guards.
ghost use Rattle.std.specs.Prelude.{◌≡◌, drop};
ghost use Rattle.ml_meaning.specs.declared.event.Event.{Event};
ghost use Rattle.ml_meaning.specs.Tellings.{Setting};
ghost use Rattle.ml_values.specs.Shown.{value};
ghost use Rattle.ml_steps.specs.Left.{Steps, choose_run, step_run, taken_run};
ghost use Rattle.ml_steps.specs.Worlds.{setting_of};

use crate::finish::failed;
use crate::frame::{Here, Next, Step, Then, go_on, go_on_then};
use crate::world::World;
use ml_matching::fits;
use ml_meaning::Event;
use ml_tree::Arm;
use ml_values::{Env, Failure, Word};
use oxml_base::NoMemory;

/// The first arm from this one on whose pattern fits, up to its guard.
pub fn choose<'t, 'a>(
    world: World<'t, 'a>,
    told: &mut Vec<Event>,
    arms: &'a [Arm],
    from: usize,
    word: Word<'a>,
    here: Here<'a>,
) -> Result<Step<'a>, NoMemory>
    ensures { Steps (setting_of world.entry) told.old.items told.new.items result (choose_run (setting_of world.entry) (drop from arms.entry.now) here.entry (value word.entry)) }
{
    for at in from..arms.len() {
        let arm = &arms[at];
        if let Some(env) = fits(world.tools, &arm.pat, word, here.env)? {
            return Ok(taken(arms, at + 1, arm, word, env, here));
        }
    }
    Ok(go_on(failed(told, Failure::NoMatch)?))
}

/// An arm whose pattern fits: its guard, and without one its body. `next` is the place of the arm
/// behind it.
fn taken<'a>(
    arms: &'a [Arm],
    next: usize,
    arm: &'a Arm,
    word: Word<'a>,
    env: Env<'a>,
    here: Here<'a>,
) -> Step<'a>
    ensures { (s : Setting Event) → step_run s result ≡ taken_run s arm.entry.now here.entry env.entry (choose_run s (drop next arms.entry.now) here.entry (value word.entry)) }
{
    match &arm.guard {
        None => go_on(Next::Visit(&arm.body, here.with(env))),
        Some(guard) => go_on_then(
            Next::Visit(guard, here.with(env).inner()),
            Then::Guard {
                body: &arm.body,
                env,
                arms,
                next,
                scrutinee: word,
            },
            here,
        ),
    }
}
