//! Why a record, or a file, is refused.

ghost use Rattle.std.specs.Prelude.{◌≡◌};
ghost use Rattle.csv_answers.specs.declared.refusal.TableRefusal.TheVariants as table_refusal;
ghost use Rattle.tables.specs.declared.refusal.FileFault.TheVariants as file_fault;
ghost use Rattle.tables.specs.Blocks.{NeedsNoReason};
ghost use Rattle.tables.specs.Tables.{fault_of_row};

use crate::line_sink::SinkFault;
use csv_answers::{Fault, TableRefusal};
use csv_cells::RowFault;
use std::alloc::AllocError;

/// Why a table's file has no lines.
#[derive(Clone, Copy)]
pub enum FileFault {
    Refused(TableRefusal),
    /// It can't be read.
    Read,
    /// It has more lines than can be counted.
    Count,
    /// What takes the lines says why.
    Stopped,
}

impl From<AllocError> for FileFault {
    ghost from_gives = { λ _ f. f ≡ file_fault.Refused table_refusal.NoMemory };

    fn from(_: AllocError) -> FileFault {
        FileFault::Refused(TableRefusal::NoMemory)
    }
}

/// The file, counted from 0, that has no lines, and why.
#[derive(Clone, Copy)]
pub struct EncodeFault {
    pub file: usize,
    pub fault: FileFault,
}

/// The file in memory, counted from 0, whose table is refused, and why.
#[derive(Clone, Copy)]
pub struct EncodeRefusal {
    pub file: usize,
    pub refusal: TableRefusal,
}

/// Why a record is refused.
#[derive(Clone, Copy)]
pub enum RecordFault {
    Fault(Fault),
    NoMemory,
    /// What takes the lines says why.
    Stopped,
}

/// The fault of a record without numbers.
pub fn fault_of_row(fault: RowFault) -> RecordFault
    ensures { result ≡ fault_of_row fault }
{
    match fault {
        RowFault::Length => RecordFault::Fault(Fault::Length),
        RowFault::Cell(place) => RecordFault::Fault(Fault::Cell(place)),
        RowFault::NoMemory => RecordFault::NoMemory,
    }
}

/// The fault of a record whose lines aren't taken.
pub fn fault_of_sink(fault: SinkFault) -> RecordFault
    ensures { NeedsNoReason result }
{
    match fault {
        SinkFault::NoMemory => RecordFault::NoMemory,
        SinkFault::Stopped => RecordFault::Stopped,
    }
}

/// A record that is refused: how many come before it, the header row among them, and why.
#[derive(Clone, Copy)]
pub struct RowRefusal {
    pub count: u64,
    pub fault: RecordFault,
}
