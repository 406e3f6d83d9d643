//! Sets of threads.

ghost use Rattle.std.specs.Prelude.{◌≡◌, ◌<◌, ◌==◌, ◌%◌, ◌-◌, ℕ, cond, max, min, MatchBool};
ghost use Rattle.std.specs.Int.{bit_at};
ghost use Rattle.workers.specs.ThreadSets.{IsIn, IsEmpty, member};

use board::WorkerSet;
use exchange::MAX_WORKERS;

/// A set of an engine's threads, of which there are at most 64. A thread has its worker's number.
#[derive(Clone, Copy)]
pub struct ThreadSet {
    bits: u64,
}

impl ThreadSet {
    /// The empty set.
    pub fn empty() -> ThreadSet
        ensures { IsEmpty result }
    {
        ThreadSet { bits: 0 }
    }

    /// The set of the first `count` threads.
    pub fn of_first(count: u32) -> ThreadSet {
        let mut set = ThreadSet::empty();
        for thread in 0..count {
            set = set.with(thread);
        }
        set
    }

    /// The threads of a set of workers.
    pub fn of_workers(workers: WorkerSet) -> ThreadSet {
        let mut left = workers;
        let mut set = ThreadSet::empty();
        for _worker in 0..MAX_WORKERS {
            let Some(worker) = left.from(0) else {
                return set;
            };
            left = left.without(worker);
            set = set.with(worker);
        }
        set
    }

    /// Its threads have numbers below 64. Nothing is done.
    pub fn law_few(self)
        ensures { (n : ℕ) → IsIn self n → n < 64 }
    {
        law_bits(self.bits);
    }

    pub fn is_empty(self) -> bool
        ensures { MatchBool result (IsEmpty self) ((n : ℕ) × IsIn self n) }
    {
        is_zero(self.bits)
    }

    pub fn has(self, thread: u32) -> bool
        ensures { MatchBool result (IsIn self (thread % 64)) (IsIn self (thread % 64) → ⊥) }
    {
        self.bits >> (thread % 64) & 1 == 1
    }

    /// The set of one thread.
    fn of(thread: u32) -> ThreadSet
        ensures { (n : ℕ) → member result n ≡ cond (n == thread % 64) 1 0 }
    {
        ThreadSet {
            bits: 1 << (thread % 64),
        }
    }

    /// The set with that thread added.
    pub fn with(self, thread: u32) -> ThreadSet
        ensures { (n : ℕ) → member result n ≡ cond (n == thread % 64) 1 (member self n) }
    {
        self.or(ThreadSet::of(thread))
    }

    /// The set without that thread.
    pub fn without(self, thread: u32) -> ThreadSet
        ensures { (n : ℕ) → member result n ≡ cond (n == thread % 64) 0 (member self n) }
    {
        self.but(ThreadSet::of(thread))
    }

    /// The union.
    pub fn or(self, other: ThreadSet) -> ThreadSet
        ensures { (n : ℕ) → member result n ≡ max (member self n) (member other n) }
    {
        ThreadSet {
            bits: self.bits | other.bits,
        }
    }

    /// The intersection.
    pub fn both(self, other: ThreadSet) -> ThreadSet
        ensures { (n : ℕ) → member result n ≡ min (member self n) (member other n) }
    {
        ThreadSet {
            bits: self.bits & other.bits,
        }
    }

    /// The difference: this set's threads that aren't in the other.
    pub fn but(self, other: ThreadSet) -> ThreadSet
        ensures { (n : ℕ) → member result n ≡ min (member self n) (1 - member other n) }
    {
        ThreadSet {
            bits: difference(self.bits, other.bits),
        }
    }

    /// One of them: that thread if it is in the set, or else the next in turn.
    pub fn from(self, thread: u32) -> Option<u32> {
        if self.is_empty() {
            return None;
        }
        let turned = self.bits.rotate_right(thread % 64);
        Some((turned.trailing_zeros() + thread % 64) % 64)
    }
}

/// Whether no bit is set.
fn is_zero(bits: u64) -> bool
    ensures { MatchBool result ((n : ℕ) → bit_at bits n ≡ 1 → ⊥) ((n : ℕ) × (bit_at bits n ≡ 1)) }
{
    bits == 0
}

/// The bits of the first that aren't set in the second.
fn difference(first: u64, second: u64) -> u64
    ensures { (n : ℕ) → bit_at result n ≡ min (bit_at first n) (1 - bit_at second n) }
{
    first & !second
}

/// A number has 64 bits. Nothing is done.
fn law_bits(bits: u64)
    ensures { (n : ℕ) → bit_at bits n ≡ 1 → n < 64 }
{}
