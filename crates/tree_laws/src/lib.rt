//! What every syntax tree of the grammar is: how many nodes it has for its tokens, how deep it is, and
//! where its spans lie.
#![tactic(auto)]

pub mod laws;
