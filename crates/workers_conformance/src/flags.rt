//! A gate at which two workers wait for one another.

ghost use Rattle.std.specs.Prelude.{◌≡◌};

use events::{Done, Work};
use rows::WorkFault;
use std::alloc::Global;
use std::sync::atomic::{AtomicBool, Ordering};
use std::thread::yield_now;
use workers::Gate;

/// A flag of each worker, which it sets before its first computation, and whether it saw the other's by then.
#[derive(Drop)]
pub struct Meeting {
    flags: [AtomicBool; 2],
    seen: [AtomicBool; 2],
}

impl Meeting {
    pub fn new() -> Meeting {
        Meeting {
            flags: [AtomicBool::new(false), AtomicBool::new(false)],
            seen: [AtomicBool::new(false), AtomicBool::new(false)],
        }
    }

    /// Whether each saw the other's flag.
    pub fn have_met(&self) -> bool {
        self.seen[0].load(Ordering::SeqCst) && self.seen[1].load(Ordering::SeqCst)
    }

    /// Sets the worker's flag, and waits for the other's.
    fn meet(&self, worker: usize, other: usize) {
        let (Some(own), Some(theirs), Some(seen)) = (
            self.flags.get(worker),
            self.flags.get(other),
            self.seen.get(worker),
        ) else {
            return;
        };
        own.store(true, Ordering::SeqCst);
        for _turn in 0..1_000_000 {
            if theirs.load(Ordering::SeqCst) {
                seen.store(true, Ordering::SeqCst);
                return;
            }
            yield_now();
        }
    }
}

impl Gate for Meeting {
    fn compute(
        &self,
        alloc: Global,
        worker: u32,
        turn: u64,
        work: Work,
    ) -> Result<Done, (Work, WorkFault)> {
        if turn == 0 {
            if worker == 0 {
                self.meet(0, 1);
            } else {
                self.meet(1, 0);
            }
        }
        work.compute(alloc)
    }

    fn after_commit(&self, _worker: u32, _turn: u64) {}
}
