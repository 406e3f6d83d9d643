//! Why a query has no graph.

ghost use Rattle.std.specs.Prelude.{◌≡◌};
ghost use Rattle.lowering.specs.declared.fault.LowerFault.TheVariants as fault;

use record_core::NoMemory;
use std::alloc::{AllocError, AllocFailed};
use thiserror::Error;

/// Why a query has no graph.
#[derive(Clone, Copy, Debug, Error)]
pub enum LowerFault {
    /// Numbered 21 in what the program writes.
    #[error("more than 4096 vertices")]
    TooMany,
    /// An allocator refused a growth.
    #[error("out of memory")]
    NoMemory,
}

impl From<NoMemory> for LowerFault {
    ghost from_gives = { λ _ r. r ≡ fault.NoMemory };

    fn from(_: NoMemory) -> LowerFault {
        LowerFault::NoMemory
    }
}

impl From<AllocError> for LowerFault {
    ghost from_gives = { λ _ r. r ≡ fault.NoMemory };

    fn from(_: AllocError) -> LowerFault {
        LowerFault::NoMemory
    }
}

impl<T: Drop> From<AllocFailed<T>> for LowerFault {
    ghost from_gives = { λ _ r. r ≡ fault.NoMemory };

    fn from(_: AllocFailed<T>) -> LowerFault {
        LowerFault::NoMemory
    }
}
