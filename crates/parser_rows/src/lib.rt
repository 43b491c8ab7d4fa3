//! Sources with the trees that the parser answers for them: the grammar by examples, the refusals, the
//! spans, the built-in definitions, and the deepest and the widest sources.
#![tactic(auto)]

#[cfg(test)]
mod limits;
#[cfg(test)]
mod read;
#[cfg(test)]
mod rows;
#[cfg(test)]
mod tables;
