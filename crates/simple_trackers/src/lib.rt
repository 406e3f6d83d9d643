//! Trackers of progress that are simple to understand, beside the one that the board uses.
//!
//! `PlainTracker` checks every active pointstamp; `CountTracker` keeps for each the number of others that could result in it, as Naiad does. Both have
//! the contract of `progress::Progress`. `changes` runs a list of changes and questions on any tracker. Tests compare all trackers; nothing that the
//! program needs is built on this crate.
#![tactic(auto)]

mod asking;
mod change;
mod counted;
mod counts;
mod plain;

pub use asking::changes;
pub use change::Change;
pub use counts::CountTracker;
pub use plain::PlainTracker;
