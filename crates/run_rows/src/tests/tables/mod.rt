//! Programs with their traces.
//!
//! `E80`, `L80`: a call or an item of this weight begins, ends. `T80>72`: a call in tail position.
//! `(`, `)`: a region begins, ends. `M3`: a block of three words is made at a node; `m3`: by an
//! operation that was called as a function. `V2`: two words are overwritten. `"hi"`: bytes on channel
//! 1, `!"no"`: on channel 2, a line feed as `|`. `=0`: the status at the end; `more`: want of fuel.

pub mod blocks;
pub mod functions;
pub mod operations;
pub mod operators;
pub mod patterns;
pub mod prints;

/// A source, the fuel, and its trace behind that of the prelude.
pub type Row = (&'static str, u64, &'static str);
