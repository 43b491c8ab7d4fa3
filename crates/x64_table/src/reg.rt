ghost use Rattle.std.specs.Prelude.{◌≡◌, ◌<◌, ◌≤◌, IfSome, IfNone};
ghost use Rattle.x64_table.specs.Numbers.{register};

use std::marker::Model;

/// A general register, by its number: 0 to 15 are rax, rcx, rdx, rbx, rsp, rbp, rsi, rdi and
/// r8 to r15. Contracts see it as that number.
#[derive(Clone, Copy, Debug, PartialEq, Eq)]
pub struct Reg {
    number: u8,
}

impl Model for Reg {
    ghost use Rattle.std.specs.Prelude.{ℕ, ◌<◌};

    ghost Value = { ℕ };

    ghost view = { λ r. r.number };

    ghost invariant = { λ r. r.number < 16 };

    ghost inverse = { λ n. record { number = n } };
}

impl Reg {
    /// The register of this number; `None` where it is above 15.
    pub fn new(n: u8) -> Option<Reg>
        ensures some { IfSome result (λ r. r ≡ n) }
        ensures none { IfNone result (16 ≤ n) }
        ensures only { n < 16 → result ≡ Some n }
    {
        if n < 16 {
            Some(Reg { number: n })
        } else {
            None
        }
    }

    /// Its number, 0 to 15.
    pub fn number(self) -> u8
        ensures number { result ≡ self }
        ensures below { result < 16 }
    {
        self.number
    }

    /// The register with this top bit, the lowest of `high`, and the three low bits of `low`.
    pub(crate) fn from_bits(high: u8, low: u8) -> Reg
        ensures { result ≡ register high low }
    {
        Reg {
            number: 8 * (high % 2) + low % 8,
        }
    }
}
