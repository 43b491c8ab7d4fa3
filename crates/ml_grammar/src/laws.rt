//! What holds of the grammar.

ghost use Rattle.std.specs.Prelude.{◌≡◌, ◌<◌, ◌+◌, ℕ, List, length};
ghost use Rattle.ml_lexer.specs.declared.token.Token.{Token};
ghost use Rattle.ml_tree.specs.declared.expr.Expr.{Expr};
ghost use Rattle.ml_tree.specs.declared.program.Program.{Program};
ghost use Rattle.ml_grammar.specs.Grammar.{Part, Reads};
ghost use Rattle.ml_grammar.specs.Programs.{Derives};

/// The tokens are at most one program.
pub fn at_most_one_program()
    ensures { (text : List ℕ) (tokens : List Token) (p q : Program) →
        Derives text tokens p → Derives text tokens q → q ≡ p }
{}

/// A part of an expression at the front of some tokens is decided: its tree, its depth, and what
/// follows it.
pub fn at_most_one_expression()
    ensures tree { (text : List ℕ) (part : Part) (ts r s : List Token) (e f : Expr) (d c : ℕ) →
        Reads text part ts e d r → Reads text part ts f c s → f ≡ e }
    ensures depth { (text : List ℕ) (part : Part) (ts r s : List Token) (e f : Expr) (d c : ℕ) →
        Reads text part ts e d r → Reads text part ts f c s → c ≡ d }
    ensures rest { (text : List ℕ) (part : Part) (ts r s : List Token) (e f : Expr) (d c : ℕ) →
        Reads text part ts e d r → Reads text part ts f c s → s ≡ r }
{}

/// A part of an expression takes at least one token, and has a depth of at least one.
pub fn read_is_shorter()
    ensures rest { (text : List ℕ) (part : Part) (ts r : List Token) (e : Expr) (d : ℕ) →
        Reads text part ts e d r → length r < length ts }
    ensures depth { (text : List ℕ) (part : Part) (ts r : List Token) (e : Expr) (d : ℕ) →
        Reads text part ts e d r → 0 < d }
{}
