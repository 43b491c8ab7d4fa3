//! Sources with what the rules on declarations of types say of them: the first violation of rules 30
//! to 33, or that there is none.
#![tactic(auto)]

#[cfg(test)]
mod cases;
#[cfg(test)]
mod long;
#[cfg(test)]
mod rows;
