//! Trackers of progress: multisets of active pointstamps that answer what can still come.
//!
//! The contract for the layers above: `Progress`, whose answers are exact for the multiset of active pointstamps. `LocationTracker` checks one time of
//! each location. Simpler trackers are in crate `simple_trackers`.
//!
//! Built on `machine`, `path_summary` and the crates below the latter; views and the board use trackers.
#![tactic(auto)]

mod located;
mod progress;
mod tree;

pub use located::LocationTracker;
pub use progress::Progress;
