use oxml_base::{Items, NoMemory, Refusal};

/// Why a list of clauses has no solution.
#[derive(Debug, Drop)]
pub enum ModeErr {
    /// No table obeys the clauses up to number `k`, which is the least such number. The refusal has
    /// the rule and the span of clause `k`. The path is the numbers of clauses, none above `k`, that
    /// lead from a forced bit by implications to a forbidden one.
    Refused {
        k: u32,
        refusal: Refusal,
        path: Items<u32>,
    },
    NoMemory,
}

impl From<NoMemory> for ModeErr {
    ghost use Rattle.std.specs.Prelude.{◌≡◌};
    ghost use Rattle.mode_solver.specs.declared.error.ModeErr.TheVariants.{NoMemory};

    ghost from_gives = { λ _ e. e ≡ NoMemory };

    fn from(_error: NoMemory) -> ModeErr {
        ModeErr::NoMemory
    }
}
