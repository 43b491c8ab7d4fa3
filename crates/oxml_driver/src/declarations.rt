//! From what the names of a program stand for to its declarations of types.
ghost use Rattle.std.specs.Prelude.{◌≡◌, ◌≤◌, IfErr, IfOk, length};
ghost use Rattle.oxml_driver.specs.Build.{NotCompiled, most_bytes};
ghost use Rattle.oxml_driver.specs.Declarations.{IsDeclaredAs};
ghost use Rattle.oxml_driver.specs.Source.{program_text};

use crate::compile::CompileErr;
use crate::names::read_scoped;
use ml_decls::{DeclErr, check_decls};
use ml_tree::Scoped;
use ml_types::{Decls, TyTable};
use std::alloc::Global;

/// A program whose names and declarations are well formed.
#[derive(Drop)]
pub struct Declared {
    pub scoped: Scoped,
    pub decls: Decls,
    /// The types of the declarations stand here.
    pub table: TyTable,
}

/// The program of a source whose names and declarations are well formed, given the program's text; or
/// the first rule that the source violates, or limit that it passes, in the order of the compiler.
pub fn read_declared(alloc: Global, source: &[u8], text: &[u8]) -> Result<Declared, CompileErr>
    requires short { length source.now ≤ most_bytes }
    requires text { text.now ≡ program_text source.now }
    ensures ok { IfOk result (λ made. IsDeclaredAs source.now made.scoped made.decls made.table) }
    ensures err { IfErr result (NotCompiled source.now) }
{
    let scoped = read_scoped(alloc, source, text)?;
    match check_decls(alloc, text, &scoped) {
        Ok((decls, table)) => Ok(Declared {
            scoped,
            decls,
            table,
        }),
        Err(DeclErr::Refused(refusal)) => Err(CompileErr::Refused(refusal)),
        Err(DeclErr::NoMemory) => Err(CompileErr::NoMemory),
    }
}
