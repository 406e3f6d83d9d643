//! What is done with a board's events, in whatever thread: a worker claims an event, a gate computes it, and it is committed or abandoned.
//!
//! | Call | What it does | Answers |
//! |---|---|---|
//! | `claim` | merges a worker's messages that are alike, and claims | as the board's `claim` |
//! | `compute` | computes an event by a gate, or abandons it | the event with its output, or why it was abandoned |
//! | `commit` | commits an event that was computed, or abandons it without memory | what the event sends |
//! | `settle` | commits an event that was computed elsewhere, or abandons one that was refused there | what the event sends, or why it was abandoned |
//! | `process` | computes an event by a gate, and settles it | the same |
//! | `received` | sums the counters of a tally | how many records they say that the vertices took in |
//! | `law_inputs` | nothing: the inputs that a graph declares are those at which its board is fed | |
//!
//! The contract for the layers above:
//!
//! No event is left out: each is committed or abandoned, by one step of the machine. An event is abandoned for lack of memory, or where a count is too
//! large, and the board is stopped then.
//!
//! Built on `board` and the crates below it. No call waits, and there is no lock.
#![tactic(auto)]

mod claiming;
mod ended;
mod inputs;
mod receiving;
mod settling;
mod tally;

pub use claiming::claim;
pub use ended::Ended;
pub use inputs::law_inputs;
pub use receiving::received;
pub use settling::{commit, compute, process, settle};
pub use tally::{Counts, Tally};
