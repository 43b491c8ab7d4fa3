//! From the program of a source to what its names stand for.
ghost use Rattle.std.specs.Prelude.{◌≡◌, ◌≤◌, IfErr, IfOk, length};
ghost use Rattle.oxml_driver.specs.Build.{NotCompiled, most_bytes};
ghost use Rattle.oxml_driver.specs.Names.{IsScoped};
ghost use Rattle.oxml_driver.specs.Source.{program_text};

use crate::compile::CompileErr;
use crate::front::read_program;
use ml_scope::{ScopeErr, resolve};
use ml_tree::Scoped;
use std::alloc::Global;

/// The program of a source with what its names stand for, given the program's text; or the first rule
/// that the source violates, or limit that it passes, in the order of the compiler.
pub fn read_scoped(alloc: Global, source: &[u8], text: &[u8]) -> Result<Scoped, CompileErr>
    requires short { length source.now ≤ most_bytes }
    requires text { text.now ≡ program_text source.now }
    ensures ok { IfOk result (IsScoped source.now) }
    ensures err { IfErr result (NotCompiled source.now) }
{
    let program = read_program(alloc, source, text)?;
    match resolve(alloc, text, program) {
        Ok(scoped) => Ok(scoped),
        Err(ScopeErr::Refused(refusal)) => Err(CompileErr::Refused(refusal)),
        Err(ScopeErr::Limit(limit)) => Err(CompileErr::Limit(limit, None)),
        Err(ScopeErr::NoMemory) => Err(CompileErr::NoMemory),
    }
}
