//! What declarations declare: where no rule on them is violated, there are types of all ids of the
//! table in which each abbreviation is the type that it stands for.
#![tactic(auto)]

ghost use Rattle.std.specs.Prelude.{ℕ, List};
ghost use Rattle.ml_tree.specs.declared.scoped.Scoped.{Scoped};
ghost use Rattle.ml_types.specs.declared.declared.Decls.{Decls};
ghost use Rattle.ml_types.specs.declared.node.TyTable.{TyTable};
ghost use Rattle.ml_decls.specs.Answers.{IsChecked};
ghost use Rattle.ml_typing.specs.Typing.{Reads};
ghost use Rattle.declared_laws.specs.Expanding.{declared_types};

/// Over declarations that were checked, the types of the table with every name of an abbreviation
/// expanded read the declarations: no abbreviation reaches itself, so that expanding ends.
pub fn declared_types_read()
    ensures { (text : List ℕ) (s : Scoped) (decls : Decls) (table : TyTable) → IsChecked text s decls table → Reads decls.types table.nodes (declared_types decls.types table.nodes) }
{}
