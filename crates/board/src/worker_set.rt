//! Sets of workers.

/// A set of a board's workers, of which there are at most 64.
#[derive(Clone, Copy)]
pub struct WorkerSet {
    bits: u64,
}

impl WorkerSet {
    /// The empty set.
    pub fn empty() -> WorkerSet {
        WorkerSet { bits: 0 }
    }

    /// The set of the first `count` workers.
    pub fn of_first(count: u32) -> WorkerSet {
        let mut set = WorkerSet::empty();
        for worker in 0..count {
            set = set.with(worker);
        }
        set
    }

    /// The set of one worker.
    fn of(worker: u32) -> WorkerSet {
        WorkerSet {
            bits: 1 << (worker % 64),
        }
    }

    pub fn is_empty(self) -> bool {
        self.bits == 0
    }

    pub fn has(self, worker: u32) -> bool {
        !self.both(WorkerSet::of(worker)).is_empty()
    }

    /// The set with that worker added.
    pub fn with(self, worker: u32) -> WorkerSet {
        self.or(WorkerSet::of(worker))
    }

    /// The set without that worker.
    pub fn without(self, worker: u32) -> WorkerSet {
        self.but(WorkerSet::of(worker))
    }

    /// The union.
    pub fn or(self, other: WorkerSet) -> WorkerSet {
        WorkerSet {
            bits: self.bits | other.bits,
        }
    }

    /// The intersection.
    pub fn both(self, other: WorkerSet) -> WorkerSet {
        WorkerSet {
            bits: self.bits & other.bits,
        }
    }

    /// The difference: this set's workers that aren't in the other.
    pub fn but(self, other: WorkerSet) -> WorkerSet {
        WorkerSet {
            bits: self.bits & !other.bits,
        }
    }

    /// One of them: that worker if it is in the set, or else the next in turn.
    pub fn from(self, worker: u32) -> Option<u32> {
        if self.is_empty() {
            return None;
        }
        let turned = self.bits.rotate_right(worker % 64);
        Some((turned.trailing_zeros() + worker % 64) % 64)
    }
}
