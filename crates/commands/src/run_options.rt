//! How a run is done.

use command_line::{FirstEpoch, GraphForm, Workers};

/// How many workers compute the answer, the gate by which they compute each event, and whether and how what each vertex did is reported after it.
#[derive(Clone, Copy)]
pub struct RunOptions<'g, G> {
    pub workers: Workers,
    pub gate: &'g G,
    pub stats: Option<GraphForm>,
}

/// How an input is followed: with how many workers, and what its first epoch is called.
#[derive(Clone, Copy)]
pub struct FollowOptions {
    pub workers: Workers,
    pub first: FirstEpoch,
}
