//! What the workers report as they end.

use std::sync::atomic::{AtomicBool, Ordering};
use workers::Ended;

/// Whether a count was too large, in any thread.
#[derive(Drop)]
pub struct Notice {
    over: AtomicBool,
}

impl Notice {
    /// Nothing reported yet.
    pub fn new() -> Notice {
        Notice {
            over: AtomicBool::new(false),
        }
    }

    /// Notes why a worker stopped working, if that was a count.
    pub fn note(&self, ended: Ended) {
        match ended {
            Ended::Count => self.over.store(true, Ordering::SeqCst),
            Ended::Drained | Ended::Stopped | Ended::Busy => {}
        }
    }

    /// Whether a worker met a count that is too large.
    pub fn is_over(&self) -> bool {
        self.over.load(Ordering::SeqCst)
    }
}
