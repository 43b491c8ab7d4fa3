//! The cursor on small texts.

mod calls;
mod lets;
