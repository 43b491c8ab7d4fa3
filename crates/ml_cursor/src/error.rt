use oxml_base::Refusal;
use std::alloc::{AllocError, AllocFailed};

/// Why there is no tree.
#[derive(Clone, Copy, Debug, PartialEq, Eq)]
pub enum ParseErr {
    /// The tokens have no tree.
    Refused(Refusal),
    /// Memory ran out.
    NoMemory,
}

impl From<AllocError> for ParseErr {
    ghost use Rattle.std.specs.Prelude.{◌≡◌};
    ghost use Rattle.ml_cursor.specs.declared.error.ParseErr.TheVariants.{NoMemory};

    ghost from_gives = { λ _ e. e ≡ NoMemory };

    fn from(_error: AllocError) -> ParseErr {
        ParseErr::NoMemory
    }
}

impl<T: Drop> From<AllocFailed<T>> for ParseErr {
    ghost use Rattle.std.specs.Prelude.{◌≡◌};
    ghost use Rattle.ml_cursor.specs.declared.error.ParseErr.TheVariants.{NoMemory};

    ghost from_gives = { λ _ e. e ≡ NoMemory };

    fn from(_error: AllocFailed<T>) -> ParseErr {
        ParseErr::NoMemory
    }
}
