//! Sources with what their names stand for, or the first rule of names that they violate: by
//! examples, at the limit, and at their largest. All was worked out by hand.
#![tactic(auto)]

#[cfg(test)]
mod accepted;
#[cfg(test)]
mod captures;
#[cfg(test)]
mod page;
#[cfg(test)]
mod predefined;
#[cfg(test)]
mod reading;
#[cfg(test)]
mod refused;
#[cfg(test)]
mod rows;
#[cfg(test)]
mod scale;
#[cfg(test)]
mod targets;
