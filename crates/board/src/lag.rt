//! Counts how long each worker's view hasn't been brought up to date.

use record_core::NoMemory;
use std::alloc::Global;

/// After this many posts, a worker that claims applies what waits for it, even if it sees an event. So it soon sees what has passed, and what was
/// kept of that is let go.
const MOST: u32 = 128;

/// An event that sent this many rows counts as one post more: they are kept until it is seen that their time has passed.
const ROWS_EACH: u64 = 512;

/// The number of batches posted, and that number at the time when each worker last applied everything. It affects memory and time only.
#[derive(Drop)]
pub struct Lag {
    posts: u32,
    seen: Vec<u32>,
}

impl Lag {
    /// For that many workers, all up to date.
    pub fn new(alloc: Global, workers: u32) -> Result<Lag, NoMemory> {
        let mut seen = Vec::with_capacity(alloc, workers as usize)?;
        for _worker in 0..workers {
            seen.push(0)?;
        }
        Ok(Lag { posts: 0, seen })
    }

    /// Counts a posted batch of changes, of an event that sent that many rows.
    pub fn post(&mut self, rows: u64) {
        let more = (rows / ROWS_EACH).min(MOST as u64) as u32;
        self.posts = self.posts.wrapping_add(1).wrapping_add(more);
    }

    /// Whether many batches were posted since the worker last applied everything.
    pub fn is_long(&self, worker: u32) -> bool {
        match self.seen.get(worker as usize) {
            Some(seen) => self.posts.wrapping_sub(*seen) >= MOST,
            None => false,
        }
    }

    /// Notes that the worker has applied everything.
    pub fn catch_up(&mut self, worker: u32) {
        let posts = self.posts;
        if let Some(seen) = self.seen.get_mut(worker as usize) {
            *seen = posts;
        }
    }
}
