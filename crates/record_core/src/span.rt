//! Places in a text, and refusals.

ghost use Rattle.std.specs.Prelude.{◌≡◌};
ghost use Rattle.record_core.specs.declared.span.Refusal.TheVariants.{NoMemory};

use std::alloc::{AllocError, AllocFailed};
use thiserror::Error;

/// A place in a text, as byte offsets; the end is exclusive.
#[derive(Clone, Copy, Debug, PartialEq, Eq)]
pub struct Span {
    pub start: u32,
    pub end: u32,
}

/// Why a text was refused: a numbered fault at its place, or lack of memory.
#[derive(Clone, Copy, Debug, PartialEq, Eq, Error)]
pub enum Refusal {
    #[error("refused {code} at {start}..{end}", start = .span.start, end = .span.end)]
    At { code: u8, span: Span },
    #[error("out of memory")]
    NoMemory,
}

impl From<AllocError> for Refusal {
    ghost from_gives = { λ _ r. r ≡ NoMemory };

    fn from(_: AllocError) -> Refusal {
        Refusal::NoMemory
    }
}

impl<T: Drop> From<AllocFailed<T>> for Refusal {
    ghost from_gives = { λ _ r. r ≡ NoMemory };

    fn from(_: AllocFailed<T>) -> Refusal {
        Refusal::NoMemory
    }
}
