//! Trees in a compact notation, in which the tables of the tests are written. No program uses it.
//!
//! A form of several parts is `(mark part part ..)`: `(Add a b)`, `(:: a b)`, `(, a b)`, `(; a b)`,
//! `(@ f a b)` for an application, `(C a)` for a constructor with its argument; a list is `[ a b]`, a
//! record `{ f=a g=b}`, and a Paren `<a>`. Where spans are asked for, `{start-end}` follows each
//! expression, pattern and item.
#![tactic(auto)]

mod expressions;
mod page;
mod patterns;
mod program;
mod types;

pub use program::print;
