//! The reasons why a schedule is refused.

ghost use Rattle.std.specs.Prelude.{◌≡◌};
ghost use Rattle.schedule.specs.ScheduleText.{code_of};
ghost use Rattle.schedule.specs.declared.refusal.ScheduleRefusal.TheVariants.{NoMemory};

use collector::{BAD_NUMBER, MALFORMED, Number};
use std::alloc::{AllocError, AllocFailed};
use thiserror::Error;

/// What is wrong with a line that has its line feed.
#[derive(Clone, Copy, Debug, Error)]
pub enum Fault {
    /// `q 1`, `t 0`, `f a 1`: a first word that isn't a verb's letter, a wrong number of words, an empty word, or a name that isn't spelled like a
    /// name or keyword.
    #[error("no step of a schedule")]
    Malformed,
    /// `t 0 01`, `p -1`, `f a +1`: a word that must be a number, and isn't one in its printed form.
    #[error("a bad number")]
    BadNumber,
}

impl Fault {
    /// The code of the fault.
    pub fn code(self) -> u8
        ensures { result ≡ code_of self }
    {
        match self {
            Fault::BadNumber => BAD_NUMBER,
            Fault::Malformed => MALFORMED,
        }
    }
}

/// The first faulty line of a schedule, counted from 1, with the code of its fault (`NO_LINE_FEED` for a last line without line feed); or lack of memory.
#[derive(Clone, Copy, Debug, Error)]
pub enum ScheduleRefusal {
    #[error("refused {code} at line {line}", code = Number(u64::from(*.code)), line = Number(*.line))]
    At { code: u8, line: u64 },
    #[error("out of memory")]
    NoMemory,
}

impl From<AllocError> for ScheduleRefusal {
    ghost from_gives = { λ _ e. e ≡ NoMemory };

    fn from(_e: AllocError) -> ScheduleRefusal {
        ScheduleRefusal::NoMemory
    }
}

impl<T: Drop> From<AllocFailed<T>> for ScheduleRefusal {
    ghost from_gives = { λ _ e. e ≡ NoMemory };

    fn from(_e: AllocFailed<T>) -> ScheduleRefusal {
        ScheduleRefusal::NoMemory
    }
}
