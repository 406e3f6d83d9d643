//! Timestamps: an epoch, and a counter for each loop around a place.
//!
//! The contract for the layers above: a time is `semantics`' `Time` with the definition's order. It is taken into a loop, out of it and to the next
//! turn as ingress, egress and feedback vertices do. Nothing here takes memory.
//!
//! Built on `semantics` and `arrayvec`. Path summaries, trackers, shards and the board use times.
#![tactic(auto)]

mod action;
mod time;

pub use action::Action;
pub use time::{MAX_LOOPS, Time};
