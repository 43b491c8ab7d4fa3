//! Sources with the types that inference finds for their names, or with the rule or the limit that
//! refuses them and where. All was worked out by hand.
#![tactic(auto)]

#[cfg(test)]
mod tests;
