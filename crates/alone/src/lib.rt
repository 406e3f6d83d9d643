//! A board in one thread: no lock, no waiting, and each call returns.
//!
//! `feed`, `feed_all`, `seal_inputs` and `close_inputs` give a board its input, while no worker holds an event. They fail for lack of memory alone.
//! `work_off` claims and processes a worker's events until it has nothing to do now. Each round leaves less work (`ending`), so it returns without
//! the leave to wait. With one worker, every epoch that is over at each input has passed at each output then, unless the board is stopped.
//! `work_some` returns after some events, so that the caller may say meanwhile what was received.
//!
//! Built on `driver` and the crates below it, and on `ending` for the measure of the work that is left.
#![tactic(auto)]

mod inputs;
mod working;

pub use inputs::{close_inputs, feed, feed_all, seal_inputs};
pub use working::{Worked, work_off, work_some};
