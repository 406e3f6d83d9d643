//! The ways in which following ends.

ghost use Rattle.std.specs.Prelude.{◌≡◌};
ghost use Rattle.follow.specs.Steps.{ending_of};
ghost use Rattle.follow.specs.declared.outcome.Halt.TheVariants as halt;

use record_core::NoMemory;
use rows::WorkFault;
use std::alloc::{AllocError, AllocFailed};
use thiserror::Error;

/// Why following ended before the whole input was answered.
#[derive(Clone, Copy, Debug, PartialEq, Eq, Error)]
pub enum Ending {
    /// The first faulty line of the input, counted from 1, and the code of its fault.
    #[error("error {code} in line {line}")]
    Input { code: u8, line: u64 },
    #[error("cannot read")]
    Read,
    /// A beginning of the text was written.
    #[error("cannot write")]
    Write,
    #[error("out of memory")]
    NoMemory,
    /// A count would have been above 9223372036854775807.
    #[error("count too large")]
    Count,
    /// The reader gave 18446744073709551615 bytes or more.
    #[error("the input is too long")]
    TooLong,
}

/// Why the work stopped half-way. Nothing is written then.
#[derive(Clone, Copy, Debug, PartialEq, Eq, Error)]
pub enum Halt {
    #[error("out of memory")]
    NoMemory,
    /// A count would have been above 9223372036854775807.
    #[error("count too large")]
    Count,
}

impl From<AllocError> for Halt {
    fn from(_error: AllocError) -> Halt {
        Halt::NoMemory
    }
}

impl<T: Drop> From<AllocFailed<T>> for Halt {
    fn from(_error: AllocFailed<T>) -> Halt {
        Halt::NoMemory
    }
}

impl From<NoMemory> for Halt {
    fn from(_error: NoMemory) -> Halt {
        Halt::NoMemory
    }
}

impl From<WorkFault> for Halt {
    fn from(fault: WorkFault) -> Halt {
        match fault {
            WorkFault::NoMemory => Halt::NoMemory,
            WorkFault::Count => Halt::Count,
        }
    }
}

impl Halt {
    /// The ending for this halt.
    pub fn ending(self) -> Ending
        ensures { result ≡ ending_of self }
    {
        match self {
            Halt::NoMemory => Ending::NoMemory,
            Halt::Count => Ending::Count,
        }
    }

    /// Which of two is reported: a count that is too large before all others, and otherwise the first.
    pub fn or(self, other: Halt) -> Halt
        ensures first { self ≡ halt.Count → result ≡ halt.Count }
        ensures second { other ≡ halt.Count → result ≡ halt.Count }
    {
        match other {
            Halt::Count => Halt::Count,
            Halt::NoMemory => self,
        }
    }
}
