use oxml_base::{Limit, NoMemory, Refusal, Span};
use std::alloc::{AllocError, AllocFailed};

/// Why a program has no types.
#[derive(Clone, Copy, Debug, PartialEq, Eq)]
pub enum InferErr {
    /// Rule 40, 41 or 42.
    Refused(Refusal),
    /// A type has more than 2,000 nodes as a tree, behind the step with this span. The count is 2,001.
    Limit(Limit, Span),
    NoMemory,
}

impl From<NoMemory> for InferErr {
    ghost use Rattle.std.specs.Prelude.{◌≡◌};
    ghost use Rattle.hm_infer.specs.declared.error.InferErr.TheVariants.{NoMemory};

    ghost from_gives = { λ _ e. e ≡ NoMemory };

    fn from(_error: NoMemory) -> InferErr {
        InferErr::NoMemory
    }
}

impl From<AllocError> for InferErr {
    ghost use Rattle.std.specs.Prelude.{◌≡◌};
    ghost use Rattle.hm_infer.specs.declared.error.InferErr.TheVariants.{NoMemory};

    ghost from_gives = { λ _ e. e ≡ NoMemory };

    fn from(_error: AllocError) -> InferErr {
        InferErr::NoMemory
    }
}

impl<T: Drop> From<AllocFailed<T>> for InferErr {
    ghost use Rattle.std.specs.Prelude.{◌≡◌};
    ghost use Rattle.hm_infer.specs.declared.error.InferErr.TheVariants.{NoMemory};

    ghost from_gives = { λ _ e. e ≡ NoMemory };

    fn from(_error: AllocFailed<T>) -> InferErr {
        InferErr::NoMemory
    }
}
