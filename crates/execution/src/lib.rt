//! Runs of a whole input: a board of 1 to 64 workers is fed epoch by epoch, until nothing is left to do.
//!
//! With one worker the caller's thread feeds an epoch and does its work before the next; there is no lock, and that part returns without the leave to
//! wait. With more, each worker has a thread of its own. The caller's thread feeds, and sleeps while it is 256 epochs ahead of what has passed. Many
//! small epochs are fed together. The caller's gate computes each event. A watcher shows how many epochs have passed, and how many records were
//! received, while the run goes on; with several workers one more thread writes to it. The caller makes the board, and so decides by which view of
//! progress the workers go: one for all, or one for each, which may be late.
//!
//! | Call | What it does | Fails |
//! |---|---|---|
//! | `execute` | feeds the epochs to a new board, and runs it until nothing is left to do | `Unfinished`: no report |
//! | `Parallelism::of` | how many threads and workers a run of the epochs has | never |
//! | `emitted` | what a report has emitted, by output and epoch | memory |
//!
//! If a count is too large at any worker, `execute` reports that before lack of memory.
//!
//! The contract for `commands` above: the report that `execute` gives is of the board's graph, it is drained, and its inputs were fed what was
//! read. The report keeps the promise of its board, so what was emitted at each output for each epoch is what the query means there. With
//! several workers none of this depends on what the threads did: the report itself is checked. With one it is proved of the loop that feeds and works.
//! Below are `workers`, `alone`, `board` and `collector`, with what these use.
#![tactic(auto)]

mod executing;
mod feeding;
mod notice;
mod outputs;
mod parallelism;
mod readings;
mod single;
mod start;
mod task;
mod threads;
mod unfinished;
mod watching;

pub use executing::execute;
pub use outputs::emitted;
pub use parallelism::Parallelism;
pub use start::{Finish, Start};
pub use unfinished::Unfinished;
pub use watching::{Telling, Watcher, takes_all};
pub use workers::{Gate, NoGate, Report};
