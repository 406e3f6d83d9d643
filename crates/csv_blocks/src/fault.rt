//! Why a text isn't read on.

ghost use Rattle.std.specs.Prelude.{◌≡◌};
ghost use Rattle.csv_blocks.specs.declared.fault.BlockFault.TheVariants as fault;

use csv_strict::Refusal;
use std::alloc::AllocError;
use thiserror::Error;

/// Why a text isn't read on.
#[derive(Clone, Copy, Debug, Error)]
pub enum BlockFault {
    #[error("out of memory")]
    NoMemory,
    /// The reader failed.
    #[error("cannot read")]
    Read,
    /// The text has more lines than can be counted.
    #[error("too many lines")]
    Count,
    /// The first fault of the text; its line is that in the whole text.
    #[error("{}, line {}", .0.fault, .0.line)]
    Text(Refusal),
}

impl From<AllocError> for BlockFault {
    ghost from_gives = { λ _ e. e ≡ fault.NoMemory };

    fn from(_error: AllocError) -> BlockFault {
        BlockFault::NoMemory
    }
}
