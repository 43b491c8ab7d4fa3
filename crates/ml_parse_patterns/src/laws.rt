//! What holds of the grammar of patterns and parameters: one reading at a place, which takes at least one
//! token and makes at most two nodes for each.

ghost use Rattle.std.specs.Prelude.{◌≡◌, ◌+◌, ◌*◌, ◌<◌, ◌≤◌, ℕ, List, length, map, sum};
ghost use Rattle.ml_lexer.specs.declared.token.Token.{Token};
ghost use Rattle.ml_tree.specs.declared.pattern.Param.{Param};
ghost use Rattle.ml_tree.specs.declared.pattern.Pat.{Pat};
ghost use Rattle.ml_tree.specs.Nodes.{pattern_nodes, param_nodes};
ghost use Rattle.ml_parse_patterns.specs.declared.looks.Level.{Level as LevelValue};
ghost use Rattle.ml_parse_patterns.specs.Patterns.{Reads, ReadsParam, ReadsParams};

/// One pattern, depth and rest at most for each level at a place.
pub fn at_most_one_pattern()
    ensures { (text : List ℕ) (level : LevelValue) (ts us vs : List Token) (p q : Pat) (d e : ℕ) →
        Reads text level ts p d us → Reads text level ts q e vs → (q ≡ p) × (e ≡ d) × (vs ≡ us) }
{}

/// One parameter, depth and rest at most at a place, and one list of parameters.
pub fn at_most_one_param()
    ensures one { (text : List ℕ) (ts us vs : List Token) (p q : Param) (d e : ℕ) →
        ReadsParam text ts p d us → ReadsParam text ts q e vs → (q ≡ p) × (e ≡ d) × (vs ≡ us) }
    ensures list { (text : List ℕ) (ts us vs : List Token) (ps qs : List Param) (d e : ℕ) →
        ReadsParams text ts ps d us → ReadsParams text ts qs e vs → (qs ≡ ps) × (e ≡ d) × (vs ≡ us) }
{}

/// A pattern and a parameter take at least one token.
pub fn takes_a_token()
    ensures pattern { (text : List ℕ) (level : LevelValue) (ts us : List Token) (p : Pat) (d : ℕ) →
        Reads text level ts p d us → length us < length ts }
    ensures params { (text : List ℕ) (ts us : List Token) (ps : List Param) (d : ℕ) →
        ReadsParams text ts ps d us → length us < length ts }
{}

/// A pattern and the patterns of parameters have at most two nodes for each token, less one.
pub fn at_most_two_nodes_a_token()
    ensures pattern { (text : List ℕ) (level : LevelValue) (ts us : List Token) (p : Pat) (d : ℕ) →
        Reads text level ts p d us → pattern_nodes p + 1 + 2 * length us ≤ 2 * length ts }
    ensures params { (text : List ℕ) (ts us : List Token) (ps : List Param) (d : ℕ) →
        ReadsParams text ts ps d us → sum (map param_nodes ps) + 1 + 2 * length us ≤ 2 * length ts }
{}
