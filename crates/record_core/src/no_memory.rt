//! The want of memory.

ghost use Rattle.std.specs.Prelude.{◌≡◌};
ghost use Rattle.record_core.specs.declared.span.Refusal.TheVariants as refusal;

use crate::span::Refusal;
use std::alloc::{AllocError, AllocFailed};
use thiserror::Error;

/// An allocator refused a growth.
#[derive(Clone, Copy, Debug, Error)]
#[error("out of memory")]
pub struct NoMemory;

impl From<AllocError> for NoMemory {
    fn from(_: AllocError) -> NoMemory {
        NoMemory
    }
}

impl<T: Drop> From<AllocFailed<T>> for NoMemory {
    fn from(_: AllocFailed<T>) -> NoMemory {
        NoMemory
    }
}

impl From<NoMemory> for Refusal {
    ghost from_gives = { λ _ r. r ≡ refusal.NoMemory };

    fn from(_: NoMemory) -> Refusal {
        Refusal::NoMemory
    }
}
