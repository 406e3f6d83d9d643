//! Why a line does nothing.

ghost use Rattle.std.specs.Prelude.{◌≡◌};
ghost use Rattle.replay.specs.Steps.{fault_refusal, refusal_of};

use board::StepRefusal;
use collector::Number;
use rows::WorkFault;
use thiserror::Error;

/// Why a line does nothing.
#[derive(Clone, Copy, Debug, Error)]
pub enum Refusal {
    /// A refusal with this code: the board refuses the step, or there is no such input, or a count would be too large.
    #[error("refused {code}", code = Number(u64::from(*.code)))]
    Step { code: u8 },
    /// The replay ends.
    #[error("out of memory")]
    NoMemory,
}

/// The worker doesn't exist, or holds no event that it could commit.
pub const NOTHING_HELD: u8 = 36;

/// A count of what the event's shard would have absorbed, or of what the event would send, would be above 9223372036854775807.
pub const COUNT_TOO_LARGE: u8 = 39;

/// No batch of that sender waits for that worker, or one of them doesn't exist.
pub const NOTHING_WAITS: u8 = 40;

/// The refusal of a line for a refusal of the board.
pub fn line_refusal(refusal: StepRefusal) -> Refusal
    ensures { result ≡ refusal_of refusal }
{
    match refusal {
        StepRefusal::NoMemory => Refusal::NoMemory,
        other => Refusal::Step { code: other.code() },
    }
}

impl From<WorkFault> for Refusal {
    ghost from_gives = { λ fault e. e ≡ fault_refusal fault };

    fn from(fault: WorkFault) -> Refusal {
        match fault {
            WorkFault::NoMemory => Refusal::NoMemory,
            WorkFault::Count => Refusal::Step {
                code: COUNT_TOO_LARGE,
            },
        }
    }
}
