//! Many workers on one board, and observers.
//!
//! An `Engine` is a board under a lock. A worker's thread runs `work`: it claims an event, computes it without the lock, and commits it. It
//! takes the lock once for a commit and its next claim. A `Plan` cuts what is fed into messages without the lock, and many small batches
//! can be fed under one lock.
//!
//! A thread computes small events in turn, of its own worker and of those whose threads sleep or haven't started. A thread is woken only when it is
//! worth the cost, after the lock is released: when many records wait for its worker, or no other thread is up. So small events don't wake
//! threads, and large ones are computed in parallel (`scheduler.rt` has the rules). What is more than two turns of a loop ahead of what is still at work
//! is left for later (`pace.rt`).
//!
//! | Call | By | What it does | Answers |
//! |---|---|---|---|
//! | `Engine::feed`, `seal`, `close` | the owner of the input | the board's call | as the board's; a refused call changes nothing |
//! | `Engine::feed_all` | the owner of the input | feeds and seals in order, under one lock | the first refusal; the calls before it are done |
//! | `Engine::wait_for` | the owner of the input | sleeps until that many epochs have passed, or no further ones will | nothing |
//! | `Engine::wait_for_news` | an observer | the same, or until more records were received | nothing |
//! | `work` | a worker's thread | works, also for sleeping workers, and sleeps while there is nothing to do | drained, stopped, a count, busy |
//! | `Mark::observe` | an observer | one load: no lock, no memory, no waiting | the number of passed epochs, or of received records; never below what its seat has read |
//! | `Engine::look` | an observer | reads the mark by the seat, and what the board shows of an epoch | epochs below what the seat has read are shown as passed |
//! | `finish` | the sole owner of the engine, with the seats of observers | ends the run | its `Report`: no seat has read more epochs than have passed |
//!
//! `report_of` gives the report of a board that was under no lock. `Engine::counting` and `finish_counting` are for an engine that counts what each vertex
//! does at each worker. A second mark may show how many records vertices have received (`Counters`); no seat at it has read more than the counters say.
//!
//! A worker that runs out of memory, or meets a count that would be above 9223372036854775807, abandons its event. That stops the board,
//! and all workers end.
//!
//! The contract for the layers above:
//!
//! - `Held` is what the lock protects. Each of its calls is the board's, with the board's contract; then it applies all that waits for
//!   worker 0, and publishes what has passed. So a thread that takes the lock finds a board that keeps the main promise, and the mark at
//!   exactly the number of epochs that have passed, however late the other workers' views are. The number of received records is raised only after so
//!   many more, since all counters are summed for it.
//! - `Shared` is that with the threads: no wakeup is lost. Whenever the lock is free, some thread is up, or no sleeping thread's worker has an event
//!   that it could claim; and at the board's end nobody is asleep. Who waits for progress waits for what hasn't come, and what a call brings rings the bell.
//! - A `Look` and a `Report` keep the promise by their types. A report knows exactly whether it is drained.
//! - An event goes back only to the engine that handed it out, and a look is by a seat at the engine's own mark. The calls require that, and `work` is
//!   proved to obey (`Naming`).
//! - Below what a seat has read, every epoch has passed at every output: `Held::observe` says so of the board under the lock.
//!
//! No clause can say what a call on an engine does behind the lock, that a thread that is woken runs, or that two threads compute at once: tests
//! show these (`workers_conformance`). Built on `board`, `events` and the crates below them.
#![tactic(auto)]

mod backlog;
mod counters;
mod dispatcher;
mod engine;
mod held;
mod mark;
mod pace;
mod plan;
mod report;
mod rule;
mod scheduler;
mod shared;
mod thread_set;
mod waiting;
mod working;

pub use counters::{Counters, Receipts};
pub use driver::Ended;
pub use engine::Engine;
pub use events::{Gate, NoGate};
pub use held::{Held, Naming};
pub use mark::{Mark, Publisher, Seat};
pub use plan::Feed;
pub use report::{Report, finish, finish_counting, report_of};
pub use working::work;
