//! Why a worker stopped working.

ghost use Rattle.std.specs.Prelude.{◌≡◌};
ghost use Rattle.driver.specs.Ends.{ended_of};

use rows::WorkFault;

/// The reason why a worker stopped working.
#[derive(Clone, Copy, Debug, PartialEq, Eq)]
pub enum Ended {
    /// Nothing is left to do.
    Drained,
    /// The board is stopped: an event was abandoned, for lack of memory or in another thread.
    Stopped,
    /// A count would have been above 9223372036854775807, so the event was abandoned and the board is stopped.
    Count,
    /// There is no such worker, or another thread works under its number.
    Busy,
}

impl From<WorkFault> for Ended {
    ghost from_gives = { λ fault e. e ≡ ended_of fault };

    fn from(fault: WorkFault) -> Ended {
        match fault {
            WorkFault::NoMemory => Ended::Stopped,
            WorkFault::Count => Ended::Count,
        }
    }
}
