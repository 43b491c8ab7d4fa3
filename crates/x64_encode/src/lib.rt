//! Instructions as bytes, each in one form, after the encoding rules of the Intel 64 manual,
//! volume 2.
#![tactic(auto)]

ghost use Rattle.std.specs.Prelude.{◌≡◌, ◌++◌, ◌-◌, ℕ, List, Some, true, length, replicate};
ghost use Rattle.x64_table.specs.Encoding.{encoding, decoded, is_row};

#[cfg(test)]
mod tables;
#[cfg(test)]
mod tests;

use x64_table::{Instr, form_of};

/// The bytes of an instruction with zeros behind them, and how many bytes it has, at most 10.
/// A `ShiftImm` is asked to have a count of at most 63: a greater one has no row. It takes no
/// memory.
pub fn encode(i: Instr) -> ([u8; 15], u8)
    requires { is_row i ≡ true }
    ensures bytes { result.0 ≡ encoding i ++ replicate (15 - length (encoding i)) 0 }
    ensures len { result.1 ≡ length (encoding i) }
    ensures reads { (rest : List ℕ) → decoded (encoding i ++ rest) ≡ Some (i, length (encoding i)) }
{
    form_of(&i)
}
