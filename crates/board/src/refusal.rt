//! The reasons for refusals.

ghost use Rattle.std.specs.Prelude.{◌≡◌, ◌≢◌, Some};
ghost use Rattle.board.specs.Codes.{refusal_code};

use crate::codes::{
    HOLDS_EVENT, INPUT_CLOSED, LAST_EPOCH, NO_SUCH_EVENT, STOPPED, UNKNOWN_INPUT, WRONG_FIELD_COUNT,
};
use thiserror::Error;

/// Why a call was refused. A refused call leaves the board unchanged.
#[derive(Clone, Copy, Debug, PartialEq, Eq, Error)]
pub enum StepRefusal {
    /// An event was abandoned, which stops the board for good.
    #[error("stopped")]
    Stopped,
    /// A feed, a seal or a close names an input that doesn't exist.
    #[error("no such input")]
    UnknownInput,
    /// A feed, a seal or a close names an input that is already closed.
    #[error("the input is closed")]
    InputClosed,
    /// A fed record doesn't have the number of fields that its input declares.
    #[error("wrong number of fields")]
    WrongFieldCount,
    /// A seal at epoch 4294967295, the last one.
    #[error("the last epoch")]
    LastEpoch,
    /// A pick for a worker that holds an event, even one that was abandoned.
    #[error("the worker holds an event")]
    HoldsEvent,
    /// A pick for a worker that has no choice of that number, or for a worker that doesn't exist.
    #[error("no such event")]
    NoSuchEvent,
    #[error("out of memory")]
    NoMemory,
}

impl StepRefusal {
    /// The code of the refusal. Lack of memory has none, since it says nothing about the call.
    pub fn code(self) -> u8
        requires { self ≢ StepRefusal.NoMemory }
        ensures { refusal_code self ≡ Some result }
    {
        match self {
            StepRefusal::InputClosed => INPUT_CLOSED,
            StepRefusal::UnknownInput => UNKNOWN_INPUT,
            StepRefusal::WrongFieldCount => WRONG_FIELD_COUNT,
            StepRefusal::NoSuchEvent => NO_SUCH_EVENT,
            StepRefusal::HoldsEvent => HOLDS_EVENT,
            StepRefusal::Stopped => STOPPED,
            StepRefusal::LastEpoch => LAST_EPOCH,
            StepRefusal::NoMemory => unreachable!(),
        }
    }
}
