//! What holds of the grammar of types and declarations.

ghost use Rattle.std.specs.Prelude.{◌≡◌, ◌<◌, List, length};
ghost use Rattle.ml_lexer.specs.declared.token.Token.{Token};
ghost use Rattle.ml_tree.specs.declared.words.Words.{Words};
ghost use Rattle.ml_tree.specs.declared.types.TyExpr.{TyExpr};
ghost use Rattle.ml_tree.specs.declared.types.Decl.{Decl};
ghost use Rattle.ml_parse_types.specs.declared.looks.Row.{Row};
ghost use Rattle.ml_parse_types.specs.Types.{Got, ReadsWords, ReadsType};
ghost use Rattle.ml_parse_types.specs.Decls.{ReadsDecls};

/// The words, the type and the declarations at the front of a list of tokens are decided.
pub fn at_most_one_thing()
    ensures words { (ts : List Token) (o p : Got Words) →
        ReadsWords ts o → ReadsWords ts p → o ≡ p }
    ensures types { (row : Row) (ts : List Token) (o p : Got TyExpr) →
        ReadsType row ts o → ReadsType row ts p → o ≡ p }
    ensures decls { (ts : List Token) (o p : Got (List Decl)) →
        ReadsDecls ts o → ReadsDecls ts p → o ≡ p }
{}

/// A type and declarations take at least one token.
pub fn read_is_shorter()
    ensures types { (row : Row) (ts : List Token) (o : Got TyExpr) →
        ReadsType row ts o → length o.rest < length ts }
    ensures decls { (ts : List Token) (o : Got (List Decl)) →
        ReadsDecls ts o → length o.rest < length ts }
{}
