//! From the declarations of a program to its types.
ghost use Rattle.std.specs.Prelude.{◌≡◌, ◌≤◌, IfErr, IfOk, length};
ghost use Rattle.oxml_driver.specs.Build.{NotCompiled, most_bytes};
ghost use Rattle.oxml_driver.specs.Source.{program_text};
ghost use Rattle.oxml_driver.specs.Types.{IsWellTyped};

use crate::compile::CompileErr;
use crate::declarations::{Declared, read_declared};
use hm_infer::{InferErr, infer};
use ml_tree::Scoped;
use std::alloc::Global;

/// The program of a source that has types, given the program's text; or the first rule that the source
/// violates, or limit that it passes, in the order of the compiler.
pub fn read_typed(alloc: Global, source: &[u8], text: &[u8]) -> Result<Scoped, CompileErr>
    requires short { length source.now ≤ most_bytes }
    requires text { text.now ≡ program_text source.now }
    ensures ok { IfOk result (IsWellTyped source.now) }
    ensures err { IfErr result (NotCompiled source.now) }
{
    let Declared {
        scoped,
        decls,
        table,
    } = read_declared(alloc, source, text)?;
    match infer(alloc, &scoped, &decls, table) {
        Ok(_) => Ok(scoped),
        Err(InferErr::Refused(refusal)) => Err(CompileErr::Refused(refusal)),
        Err(InferErr::Limit(limit, span)) => Err(CompileErr::Limit(limit, Some(span))),
        Err(InferErr::NoMemory) => Err(CompileErr::NoMemory),
    }
}
