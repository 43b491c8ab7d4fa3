ghost use Rattle.std.specs.Prelude.{◌≡◌, [], IfOk, string_bytes};

use crate::outside::ShelfCall;
use std::alloc::{AllocError, Global};

/// The call of a shelf that failed last, and the name that it asked for.
#[derive(Debug, Drop)]
pub struct LastFault {
    pub call: ShelfCall,
    pub name: String,
}

impl LastFault {
    /// What a new shelf has, on which no call has failed: a load of the empty name.
    pub fn none(alloc: Global) -> LastFault
        ensures call { result.call ≡ ShelfCall.Load }
        ensures name { string_bytes result.name ≡ [] }
    {
        LastFault {
            call: ShelfCall::Load,
            name: String::new(alloc),
        }
    }

    pub fn new(alloc: Global, call: ShelfCall, name: &str) -> Result<LastFault, AllocError>
        ensures { IfOk result (λ fault. (fault.call ≡ call) × (string_bytes fault.name ≡ name.now)) }
    {
        let name = String::from_str(alloc, name)?;
        Ok(LastFault { call, name })
    }
}
