//! Why work on records ends without a result.

ghost use Rattle.std.specs.Prelude.{◌≡◌};
ghost use Rattle.rows.specs.declared.fault.WorkFault.TheVariants.{NoMemory};

use record_core::NoMemory;
use std::alloc::{AllocError, AllocFailed};
use thiserror::Error;

/// Why work on records could not be done: by a batch, a shard, an event or an engine.
#[derive(Clone, Copy, Debug, Error)]
pub enum WorkFault {
    /// An allocator refused a growth.
    #[error("out of memory")]
    NoMemory,
    /// A count would be above 9223372036854775807.
    #[error("count too large")]
    Count,
}

impl From<AllocError> for WorkFault {
    ghost from_gives = { λ _ e. e ≡ NoMemory };

    fn from(_: AllocError) -> WorkFault {
        WorkFault::NoMemory
    }
}

impl<T: Drop> From<AllocFailed<T>> for WorkFault {
    ghost from_gives = { λ _ e. e ≡ NoMemory };

    fn from(_: AllocFailed<T>) -> WorkFault {
        WorkFault::NoMemory
    }
}

impl From<NoMemory> for WorkFault {
    ghost from_gives = { λ _ e. e ≡ NoMemory };

    fn from(_: NoMemory) -> WorkFault {
        WorkFault::NoMemory
    }
}
