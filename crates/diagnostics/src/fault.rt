//! What may go wrong, and the line and the status that report it.

ghost use Rattle.std.specs.Prelude.{◌≡◌};
ghost use Rattle.diagnostics.specs.Faults.{status_of};

use crate::display::Part::{Path, Text};
use crate::display::write_line;
use collector::Number;
use std::io;
use std::io::Write;
use thiserror::Error;

/// Why a command came to no answer.
#[derive(Debug, Drop, Error)]
pub enum Fault {
    /// The query's first fault: its code, and the bytes that it covers.
    #[error("query refused {code} at {start}..{end}", code = Number(u64::from(*.code)), start = Number(u64::from(*.start)), end = Number(u64::from(*.end)))]
    Query { code: u8, start: u32, end: u32 },
    /// The query's graph would have too many vertices.
    #[error("query refused 21")]
    TooManyVertices,
    /// The input's first faulty line, with its code.
    #[error("input refused {code} at line {line}", code = Number(u64::from(*.code)), line = Number(*.line))]
    Input { code: u8, line: u64 },
    /// The schedule's first faulty line, with its code.
    #[error("schedule refused {code} at line {line}", code = Number(u64::from(*.code)), line = Number(*.line))]
    Schedule { code: u8, line: u64 },
    #[error("out of memory")]
    NoMemory,
    /// A count would have been above 9223372036854775807.
    #[error("count too large")]
    Count,
    #[error("cannot start a worker")]
    NoWorker,
    /// The engine has not done all that was read. No run is known that ends so.
    #[error("the run is incomplete")]
    Incomplete,
    #[error("cannot read the query")]
    ReadQuery,
    /// Also of a schedule.
    #[error("cannot read the input")]
    ReadInput,
    #[error("cannot write")]
    Write,
}

impl Fault {
    /// The status that the program ends with.
    pub fn status(&self) -> u8
        ensures { result ≡ status_of self.now }
    {
        match self {
            Fault::Query { .. } | Fault::TooManyVertices => 3,
            Fault::Input { .. } | Fault::Schedule { .. } => 4,
            Fault::NoMemory | Fault::Count | Fault::NoWorker | Fault::Incomplete => 5,
            Fault::ReadQuery | Fault::ReadInput | Fault::Write => 6,
        }
    }

    /// Writes the fault's one line. A file that couldn't be read is named by its path: `query`, or `input`, which may be a
    /// schedule's.
    pub fn write_line<W: Write>(&self, query: &str, input: &str, writer: &mut W) -> io::Result<()> {
        match self {
            Fault::ReadQuery => write_line(&[Text("cannot read "), Path(query)], writer),
            Fault::ReadInput => write_line(&[Text("cannot read "), Path(input)], writer),
            _ => writeln!(writer, "{self}"),
        }
    }
}
