//! Runs of the engine end.
#![tactic(auto)]

pub mod laws;
