//! What holds of the trees that stand in the grammar.

ghost use Rattle.std.specs.Prelude.{◌≡◌, ◌+◌, ◌-◌, ◌*◌, ◌≤◌, ℕ, List, length, map, sum, take};
ghost use Rattle.std.specs.List.{All};
ghost use Rattle.ml_lexer.specs.Tokens.{AreInOrder};
ghost use Rattle.ml_lexer.specs.declared.token.Token.{Token};
ghost use Rattle.ml_cursor.specs.Places.{extent};
ghost use Rattle.ml_tree.specs.declared.pattern.Param.{Param};
ghost use Rattle.ml_tree.specs.declared.pattern.Pat.{Pat};
ghost use Rattle.ml_tree.specs.declared.expr.Expr.{Expr};
ghost use Rattle.ml_tree.specs.declared.program.Item.{Item};
ghost use Rattle.ml_tree.specs.declared.program.Program.{Program};
ghost use Rattle.ml_tree.specs.Depth.{greatest, pattern_depth, param_depth, expr_depth};
ghost use Rattle.ml_tree.specs.Nodes.{expr_nodes};
ghost use Rattle.ml_numbers.specs.Numbered.{numbered};
ghost use Rattle.ml_parse_patterns.specs.declared.looks.Level.{Level as LevelValue};
ghost use Rattle.ml_parse_patterns.specs.Patterns.{Reads as ReadsLevel, ReadsParams};
ghost use Rattle.ml_grammar.specs.Grammar.{Part, Reads};
ghost use Rattle.ml_grammar.specs.Programs.{AnItem, Derives};
ghost use Rattle.tree_laws.specs.Counts.{item_nodes};
ghost use Rattle.tree_laws.specs.Depths.{item_depth};
ghost use Rattle.tree_laws.specs.Operators.{operators, item_operators};
ghost use Rattle.tree_laws.specs.Spans.{Edge, Nests, Stand, Within, all, pattern_edges, param_edges, root_edges, item_edges};

/// The count of nodes of a numbered program is that of the nodes of its items.
pub fn counts_its_nodes()
    ensures { (items : List Item) → (numbered items).nodes ≡ sum (map item_nodes items) }
{}

/// An expression and a program have at most two nodes for each token.
pub fn at_most_two_nodes_a_token()
    ensures expression { (text : List ℕ) (part : Part) (ts rest : List Token) (e : Expr) (d : ℕ) →
        Reads text part ts e d rest → expr_nodes e + 1 + 2 * length rest ≤ 2 * length ts }
    ensures program { (text : List ℕ) (tokens : List Token) (p : Program) →
        Derives text tokens p → p.nodes ≤ 2 * length tokens }
{}

/// Twice the operators between two operands are no more than the tokens.
pub fn at_most_half_are_operators()
    ensures expression { (text : List ℕ) (part : Part) (ts rest : List Token) (e : Expr) (d : ℕ) →
        Reads text part ts e d rest → 2 * operators e + 1 + length rest ≤ length ts }
    ensures program { (text : List ℕ) (tokens : List Token) (p : Program) →
        Derives text tokens p → 2 * sum (map item_operators p.items) ≤ length tokens }
{}

/// The spans nest. Each node and each type expression of a pattern, an expression or an item has a span
/// from the start of one of the tokens read to the end of that or a later one, and these tokens are some of
/// those of the node that it is a part of. The items of a program stand one behind another, each on tokens
/// of its own.
pub fn spans_nest()
    ensures pattern { (text : List ℕ) (level : LevelValue) (ts rest : List Token) (p : Pat) (d : ℕ) →
        ReadsLevel text level ts p d rest → All (Nests ts (length ts - length rest)) (pattern_edges p (extent ts rest)) }
    ensures params { (text : List ℕ) (ts rest : List Token) (ps : List Param) (d : ℕ) →
        ReadsParams text ts ps d rest → All (Nests ts (length ts - length rest)) (all (map param_edges ps) (extent ts rest)) }
    ensures expression { (text : List ℕ) (part : Part) (ts rest : List Token) (e : Expr) (d : ℕ) →
        Reads text part ts e d rest → All (Nests ts (length ts - length rest)) (root_edges e) }
    ensures item { (text : List ℕ) (ts rest : List Token) (i : Item) (d : ℕ) →
        AnItem text ts i d rest → All (Nests ts (length ts - length rest)) (item_edges i) }
    ensures program { (text : List ℕ) (tokens : List Token) (p : Program) →
        Derives text tokens p → Stand tokens 0 (map item_edges p.items) }
{}

/// Where the tokens are in order, spans that nest by their tokens nest by their bytes.
pub fn nested_spans_lie_within()
    ensures { (tokens : List Token) (count from to : ℕ) (edges : List Edge) →
        count ≤ length tokens → AreInOrder from (take count tokens) to → All (Nests tokens count) edges →
        All Within edges }
{}

/// The depth that the grammar counts is that of the tree, and the trees of a program are of depth 1,000 at
/// most.
pub fn depth_is_of_the_tree()
    ensures pattern { (text : List ℕ) (level : LevelValue) (ts rest : List Token) (p : Pat) (d : ℕ) →
        ReadsLevel text level ts p d rest → d ≡ pattern_depth p }
    ensures params { (text : List ℕ) (ts rest : List Token) (ps : List Param) (d : ℕ) →
        ReadsParams text ts ps d rest → d ≡ greatest (map param_depth ps) }
    ensures expression { (text : List ℕ) (part : Part) (ts rest : List Token) (e : Expr) (d : ℕ) →
        Reads text part ts e d rest → d ≡ expr_depth e }
    ensures program { (text : List ℕ) (tokens : List Token) (p : Program) →
        Derives text tokens p → greatest (map item_depth p.items) ≤ 1000 }
{}
