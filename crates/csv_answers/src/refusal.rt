//! Why a table is refused.

ghost use Rattle.csv_answers.specs.declared.refusal.TableRefusal.TheVariants as refusal;
ghost use Rattle.std.specs.Prelude.{◌≡◌};

use std::alloc::{AllocError, AllocFailed};

/// What is wrong with a CSV file, or with an answer.
#[derive(Clone, Copy)]
pub enum Fault {
    /// The text isn't one of CSV.
    Text(csv_strict::Fault),
    /// The header row doesn't have the schema's names, in their order.
    Header,
    /// A record has another number of cells than the schema has columns.
    Length,
    /// The cell in that column, from 0, stands for nothing there.
    Cell(usize),
    /// The value in that column, from 0, is less than that of the record before, and begins an epoch.
    Order(usize),
    /// A dictionary's file has two equal texts, or records of more than one cell.
    Dictionary,
    /// A line of an answer isn't one of this output.
    Answer,
}

/// A fault, and the line on which its record begins, counted from 1; or lack of memory.
#[derive(Clone, Copy)]
pub enum TableRefusal {
    At { fault: Fault, line: u64 },
    NoMemory,
}

impl From<AllocError> for TableRefusal {
    ghost from_gives = { λ _ r. r ≡ refusal.NoMemory };

    fn from(_e: AllocError) -> TableRefusal {
        TableRefusal::NoMemory
    }
}

impl<T: Drop> From<AllocFailed<T>> for TableRefusal {
    ghost from_gives = { λ _ r. r ≡ refusal.NoMemory };

    fn from(_e: AllocFailed<T>) -> TableRefusal {
        TableRefusal::NoMemory
    }
}
