//! The changes of one sender, and how far each worker has applied them.

ghost use Rattle.std.specs.Prelude.{◌≡◌, ◌+◌, ◌<◌, ◌≤◌, ◌∷◌, ◌++◌, ℕ, [], IfOk, MatchBool, OnOk, true, false, length, take, vec_capacity, vec_len};
ghost use Rattle.semantics.specs.Graph.{Graph as Definition};
ghost use Rattle.semantics.specs.Could.{IsTimeAt, Pointstamp as Active};
ghost use Rattle.progress.specs.Content.{times_in};

use crate::batches::{end_of_batch, ends, forget, least, lower, push_batch};
use path_summary::Pointstamp;
use record_core::NoMemory;
use std::alloc::Global;
use std::marker::Model;

/// A change, or the end of a batch.
#[derive(Drop)]
pub enum Change {
    Add(Pointstamp),
    Remove(Pointstamp),
    End,
}

/// Changes in the order in which they were posted, and the place that each worker has reached.
#[derive(Drop)]
pub struct Queue {
    changes: Vec<Change>,
    taken: Vec<usize>,
    free: usize,
}

impl Model for Queue {
    ghost use Rattle.std.specs.Prelude.{◌+◌, ◌≤◌, vec_capacity, vec_len};
    ghost use Rattle.views.specs.Queued.{IsQueue, Queued};

    ghost Value = { Queued };

    ghost view = { λ q. record { changes = q.changes.items; taken = q.taken.items; free = q.free } };

    ghost invariant = { λ q. (vec_len q.changes + q.free ≤ vec_capacity q.changes) × IsQueue q.changes.items q.taken.items };
}

impl Queue {
    ghost use Rattle.views.specs.Queued.{AllKnown, EndsFrom, IsSameQueue, IsTaken, untaken, batches_of};
    ghost use Rattle.views.specs.Waiting.{batch};

    /// Creates an empty queue.
    pub fn new(alloc: Global, workers: u32) -> Result<Queue, NoMemory>
        ensures none { IfOk result (λ q. q.changes ≡ []) }
        ensures taken { IfOk result (λ q. length q.taken ≡ workers) }
        ensures free { IfOk result (λ q. q.free ≡ 0) }
    {
        let mut taken = Vec::with_capacity(alloc, workers as usize)?;
        for _ in 0..workers {
            taken.push(0)?;
        }
        Ok(Queue {
            changes: Vec::new(alloc),
            taken,
            free: 0,
        })
    }

    /// Makes room for `count` changes and ends of batches.
    pub fn reserve(&mut self, count: usize) -> Result<(), NoMemory>
        ensures same { IsSameQueue self.old self.new }
        ensures free { OnOk result (count ≤ self.new.free) }
    {
        if count > self.free {
            self.trim();
            self.changes.reserve(count)?;
            self.free = count;
        }
        Ok(())
    }

    /// Drops what every worker has applied, if that is at least half of the queue. So each change is moved only once or twice.
    fn trim(&mut self)
        ensures { IsSameQueue self.old self.new }
    {
        let gone = least(&self.taken, self.changes.len());
        if gone >= self.changes.len() / 2 {
            forget(&mut self.changes, gone);
            lower(&mut self.taken, gone);
        }
    }

    /// Appends a batch.
    pub fn post(&mut self, added: &[Pointstamp], removed: &[Pointstamp])
        requires room { length added.now + length removed.now + 1 ≤ self.old.free }
        ensures batch { (w : ℕ) → w < length self.old.taken → (s : ℕ) →
            batches_of s (untaken self.new w) ≡ batches_of s (untaken self.old w) ++ (batch s added.now removed.now ∷ []) }
        ensures more { (w : ℕ) → w < length self.old.taken →
            length (untaken self.new w) ≡ length (untaken self.old w) + (length added.now + length removed.now + 1) }
        ensures taken { self.new.taken ≡ self.old.taken }
        ensures known { (g : Definition) → AllKnown g self.old.changes
            → ((q : Active) → 0 < times_in added.now q → IsTimeAt g q.location q.time)
            → ((q : Active) → 0 < times_in removed.now q → IsTimeAt g q.location q.time) → AllKnown g self.new.changes }
        ensures free { self.old.free ≡ self.new.free + (length added.now + length removed.now + 1) }
    {
        push_batch(&mut self.changes, added, removed);
        self.free -= added.len() + removed.len() + 1;
    }

    /// What the worker hasn't applied.
    pub fn waiting(&self, worker: u32) -> &[Change]
        requires { worker < length self.now.taken }
        ensures waiting { result.now ≡ untaken self.now worker }
        ensures ends { EndsFrom false result.now }
    {
        &self.changes[self.taken[worker as usize]..]
    }

    /// Whether there is a batch that the worker hasn't applied.
    pub fn has_waiting(&self, worker: u32) -> bool
        requires { worker < length self.now.taken }
        ensures { (s : ℕ) → MatchBool result (batches_of s (untaken self.now worker) ≡ [] → ⊥) (batches_of s (untaken self.now worker) ≡ []) }
    {
        self.taken[worker as usize] < self.changes.len()
    }

    /// The number of batches that the worker hasn't applied.
    pub fn count_waiting(&self, worker: u32) -> usize
        requires { worker < length self.now.taken }
        ensures { (s : ℕ) → result ≡ length (batches_of s (untaken self.now worker)) }
    {
        ends(self.waiting(worker))
    }

    /// Takes the next batch for the worker. False if there is none.
    pub fn take(&mut self, worker: u32) -> bool
        requires { worker < length self.old.taken }
        ensures took { result ≡ true → IsTaken (untaken self.old worker) (untaken self.new worker) }
        ensures none { result ≡ false → (untaken self.old worker ≡ []) × (self.new ≡ self.old) }
        ensures others { (w : ℕ) → (w ≡ worker → ⊥) → untaken self.new w ≡ untaken self.old w }
        ensures changes { self.new.changes ≡ self.old.changes }
        ensures taken { length self.new.taken ≡ length self.old.taken }
        ensures free { self.new.free ≡ self.old.free }
    {
        let from = self.taken[worker as usize];
        if from >= self.changes.len() {
            return false;
        }
        self.taken[worker as usize] = end_of_batch(&self.changes, from);
        true
    }
}
