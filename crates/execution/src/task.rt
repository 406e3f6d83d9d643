//! What a run has to do.

use crate::notice::Notice;
use collector::Epochs;

/// The most epochs that are fed ahead of what has passed, so that only their messages wait, and not those of the whole input.
pub const AHEAD: u32 = 256;

/// The epochs to feed, the numbers of inputs, threads and workers, and where the workers note why they end.
#[derive(Clone, Copy)]
pub struct Task<'a> {
    pub epochs: &'a Epochs,
    pub inputs: u32,
    pub threads: u32,
    pub workers: u32,
    pub notice: &'a Notice,
}
