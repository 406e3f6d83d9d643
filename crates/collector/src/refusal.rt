//! The reasons why an input text is refused.

ghost use Rattle.std.specs.Prelude.{◌≡◌};
ghost use Rattle.collector.specs.Lines.{code_of};
ghost use Rattle.collector.specs.declared.refusal.InputRefusal.TheVariants.{NoMemory};

use crate::codes::{BAD_NUMBER, MALFORMED, NO_EPOCH, TOO_MANY_EPOCHS, UNKNOWN_INPUT, WRONG_FIELDS};
use crate::number::Number;
use record_core::NoMemory;
use std::alloc::{AllocError, AllocFailed};
use thiserror::Error;

/// What is wrong with a line that has its line feed.
#[derive(Clone, Copy, Debug, Error)]
pub enum Fault {
    /// `a 1`, `a 1 ` or an empty line: an empty word, or a first word that isn't spelled like a name or keyword.
    #[error("no line of an input")]
    Malformed,
    /// `epoch` for the 4,294,967,296th time.
    #[error("too many epochs")]
    TooManyEpochs,
    /// `a 1` before the first `epoch`.
    #[error("a record before the first epoch")]
    NoEpoch,
    /// `c 1` where no input is named `c`.
    #[error("no such input")]
    Unknown,
    /// `a 01`, `a +1`, `a x`: a word after the first that isn't a number in its printed form.
    #[error("a bad number")]
    BadNumber,
    /// `a 1 2` where the input `a` has one field.
    #[error("wrong number of fields")]
    WrongFields,
}

impl Fault {
    /// The code of the fault.
    pub fn code(self) -> u8
        ensures { result ≡ code_of self }
    {
        match self {
            Fault::NoEpoch => NO_EPOCH,
            Fault::Unknown => UNKNOWN_INPUT,
            Fault::BadNumber => BAD_NUMBER,
            Fault::WrongFields => WRONG_FIELDS,
            Fault::Malformed => MALFORMED,
            Fault::TooManyEpochs => TOO_MANY_EPOCHS,
        }
    }
}

/// The first faulty line of an input text, counted from 1, with the code of its fault (`NO_LINE_FEED` for a last line without line feed); or lack of memory.
#[derive(Clone, Copy, Debug, PartialEq, Eq, Error)]
pub enum InputRefusal {
    #[error("refused {code} at line {line}", code = Number(u64::from(*.code)), line = Number(*.line))]
    At { code: u8, line: u64 },
    #[error("out of memory")]
    NoMemory,
}

impl From<AllocError> for InputRefusal {
    ghost from_gives = { λ _ e. e ≡ NoMemory };

    fn from(_e: AllocError) -> InputRefusal {
        InputRefusal::NoMemory
    }
}

impl<T: Drop> From<AllocFailed<T>> for InputRefusal {
    ghost from_gives = { λ _ e. e ≡ NoMemory };

    fn from(_e: AllocFailed<T>) -> InputRefusal {
        InputRefusal::NoMemory
    }
}

impl From<NoMemory> for InputRefusal {
    ghost from_gives = { λ _ e. e ≡ NoMemory };

    fn from(_e: NoMemory) -> InputRefusal {
        InputRefusal::NoMemory
    }
}
