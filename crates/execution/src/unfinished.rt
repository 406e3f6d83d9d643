//! Why a run has no report.

ghost use Rattle.std.specs.Prelude.{◌≡◌};
ghost use Rattle.execution.specs.Single.{unfinished_of};

use board::StepRefusal;
use record_core::NoMemory;
use rows::WorkFault;
use std::alloc::AllocError;
use thiserror::Error;

/// Why there is no report.
#[derive(Clone, Copy, Debug, Error)]
pub enum Unfinished {
    /// The feeder or a worker had no memory.
    #[error("out of memory")]
    NoMemory,
    /// A count would have been above 9223372036854775807 in a worker.
    #[error("count too large")]
    Count,
    /// A worker's thread could not be started.
    #[error("cannot start a worker")]
    NoWorker,
    /// With several workers: the engine refused a call for a reason other than memory, or it isn't drained, or it was fed something other than what was
    /// read. No run is known that ends like this.
    #[error("the run is incomplete")]
    Incomplete,
}

impl From<StepRefusal> for Unfinished {
    fn from(refusal: StepRefusal) -> Unfinished {
        match refusal {
            // If an event was abandoned for a count that is too large, its worker reports that.
            StepRefusal::NoMemory | StepRefusal::Stopped => Unfinished::NoMemory,
            StepRefusal::UnknownInput
            | StepRefusal::InputClosed
            | StepRefusal::WrongFieldCount
            | StepRefusal::LastEpoch
            | StepRefusal::HoldsEvent
            | StepRefusal::NoSuchEvent => Unfinished::Incomplete,
        }
    }
}

impl From<WorkFault> for Unfinished {
    ghost from_gives = { λ fault u. u ≡ unfinished_of fault };

    fn from(fault: WorkFault) -> Unfinished {
        match fault {
            WorkFault::NoMemory => Unfinished::NoMemory,
            WorkFault::Count => Unfinished::Count,
        }
    }
}

impl From<NoMemory> for Unfinished {
    fn from(_error: NoMemory) -> Unfinished {
        Unfinished::NoMemory
    }
}

impl From<AllocError> for Unfinished {
    fn from(_error: AllocError) -> Unfinished {
        Unfinished::NoMemory
    }
}
