//! How an expression ends.
ghost use Rattle.ml_meaning.specs.declared.event.Event.{Event};
ghost use Rattle.ml_meaning.specs.Tellings as t;
ghost use Rattle.ml_values.specs.Givings.{Plainly, given_run};
ghost use Rattle.ml_values.specs.Shown.{value};
ghost use Rattle.ml_values.specs.Telling.{failure_of, mode_of};
ghost use Rattle.ml_steps.specs.Left.{Nexts, finished};

use crate::frame::Next;
use ml_meaning::Event;
use ml_values::{Failure, Given, Mode, Word, close, fail, leave};
use oxml_base::NoMemory;

/// The value is that of the whole expression: in tail position the region is closed and the call is
/// left.
pub fn finish<'a>(told: &mut Vec<Event>, mode: Mode, word: Word<'a>) -> Result<Next<'a>, NoMemory>
    ensures { Plainly (λ s. Nexts s told.old.items told.new.items result (t.finish Event s (mode_of mode) (value word.entry))) }
{
    close(told, mode)?;
    leave(told, mode)?;
    Ok(Next::Give(word))
}

/// The program fails.
pub fn failed<'a>(told: &mut Vec<Event>, failure: Failure) -> Result<Next<'a>, NoMemory>
    ensures { Plainly (λ s. Nexts s told.old.items told.new.items result (t.fail Event s (failure_of failure))) }
{
    let ending = fail(told, failure)?;
    Ok(Next::Stop(ending))
}

/// What an operation gave is the value of the whole, or ends the program.
pub fn finish_given<'a>(
    told: &mut Vec<Event>,
    mode: Mode,
    given: Given<'a>,
) -> Result<Next<'a>, NoMemory>
    ensures { Plainly (λ s. Nexts s told.old.items told.new.items result (finished s mode (given_run given.entry))) }
{
    match given {
        Given::Value(word) => finish(told, mode, word),
        Given::End(ending) => Ok(Next::Stop(ending)),
    }
}
