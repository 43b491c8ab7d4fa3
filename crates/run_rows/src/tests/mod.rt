//! Programs with what their evaluation gives: traces, bytes, words, and one long loop.

mod evaluation;
mod long;
mod programs;
mod rows;
mod shown;
mod tables;
mod whole;
mod words;
