//! Programs with their traces, worked out by hand.
#![tactic(auto)]

#[cfg(test)]
mod tests;
