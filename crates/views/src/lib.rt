//! Views of progress: what each worker sees of the active pointstamps (Naiad, section 3.3).
//!
//! The contract for the layers above: `Views`. A worker's view may be late, but it never lets through what the active pointstamps hold back.
//! Once nothing waits for the worker, it lets through exactly what they do.
//!
//! | Type | A batch of changes is seen | Cost of a batch |
//! |---|---|---|
//! | `Direct` | at once, by all workers | one update of one tracker for each change |
//! | `LocalViews` | by each worker once it applies it; each sender's batches in order | the same, plus one step of each worker along its sender's queue |
//!
//! Built on the trackers of crate `progress`, on `machine`, and on the crates below these two.
#![tactic(auto)]

mod all_waiting;
mod batches;
mod direct;
mod laws;
mod local_views;
mod opening;
mod queue;
mod stale;
mod tracked;
mod views;

pub use all_waiting::catch_up;
pub use direct::Direct;
pub use laws::{law_of_step, law_of_waiting};
pub use local_views::LocalViews;
pub use progress::LocationTracker;
pub use views::Views;
