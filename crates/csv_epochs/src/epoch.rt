//! What a splitter hands out.

ghost use Rattle.std.specs.Prelude.{◌≡◌};
ghost use Rattle.csv_epochs.specs.declared.epoch.SplitFault.TheVariants as fault;

use csv_strict::Refusal;
use std::alloc::AllocError;
use thiserror::Error;

/// Consecutive records of a text with the same cell in the column that is asked for.
#[derive(Drop)]
pub struct Epoch {
    /// The bytes of the header row, and then those of the records: a whole text of CSV.
    pub text: Vec<u8>,
    /// The bytes of the cell, without the quotes around it. `None`: the record has no such cell; it is the only one of the epoch.
    pub cell: Option<Vec<u8>>,
    /// The line of the first record in the whole text, counted from 1. It stops at the largest number.
    pub first_line: u64,
    /// The number of lines of the header row.
    pub header_lines: u64,
}

/// What is left at the end of a text.
#[derive(Drop)]
pub struct Ending {
    /// The header row, or all of a text that ends in it.
    pub header: Vec<u8>,
    /// The last epochs: none, one, or two if no line feed ends the last record.
    pub epochs: Vec<Epoch>,
}

/// Why a text isn't split on.
#[derive(Clone, Copy, Debug, Error)]
pub enum SplitFault {
    #[error("out of memory")]
    NoMemory,
    /// The first fault of the text; its line is that in the whole text.
    #[error("{}, line {}", .0.fault, .0.line)]
    Text(Refusal),
}

impl From<AllocError> for SplitFault {
    ghost from_gives = { λ _ e. e ≡ fault.NoMemory };

    fn from(_error: AllocError) -> SplitFault {
        SplitFault::NoMemory
    }
}
