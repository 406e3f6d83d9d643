//! What a claim and a commit answer.

use events::{Done, Work};

/// The answer of `claim`: the first that applies, in this order.
pub enum Claimed {
    /// The board is stopped.
    Stopped,
    /// The worker holds an event, or there is no such worker.
    Busy,
    /// An event for the worker.
    Work(Work),
    /// Every input is closed, nothing waits and no worker holds an event: the run is complete.
    Drained,
    /// The worker can do nothing now.
    Idle,
}

/// The reason why a commit was refused.
pub enum CommitRefusal {
    /// Out of memory. The board is unchanged, and the event comes back whole.
    NoMemory(Done),
}
