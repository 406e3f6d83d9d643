//! Views that may be late: a worker doesn't see what waits for it.

ghost use Rattle.std.specs.Prelude.{◌≡◌, ◌+◌, ◌-◌, ◌^◌, ◌<◌, ◌≤◌, ℕ, [], IfOk, MatchBool, OnOk, Some, length, min, slice_get, true};
ghost use Rattle.graph.specs.Shown.{shown_graph};
ghost use Rattle.semantics.specs.Limits.{max_workers};
ghost use Rattle.semantics.specs.Could.{IsTimeAt, Pointstamp as Active};
ghost use Rattle.machine.specs.Active.{sum_below};
ghost use Rattle.progress.specs.Content.{times_in};
ghost use Rattle.views.specs.Opening.{active_at_first};
ghost use Rattle.views.specs.Queued.{Queued, batches_of};
ghost use Rattle.views.specs.QueuedLists.{batches_lists, lists_of};
ghost use Rattle.views.specs.WorkerViews.{AllFree, AllTaken, AreSameQueues, HasPlaces, WorkerViews, content_of, untaken_at, waiting_of};

use crate::opening::open_inputs;
use crate::queue::Queue;
use crate::stale::is_blocked;
use crate::tracked::{add_all, remove_all};
use crate::views::Views;
use path_summary::{Paths, Pointstamp};
use progress::{LocationTracker, Progress};
use record_core::NoMemory;
use std::alloc::Global;
use std::marker::Model;
use std::sync::Arc;

/// The least number of changes to reserve room for, so that most steps find room.
const BLOCK: u32 = 64;

/// One tracker of what is active, and for each sender a queue of its batches, in which each worker has a place. A batch is kept until every worker
/// has applied it.
#[derive(Drop)]
pub struct LocalViews {
    paths: Arc<Paths, Global>,
    tracker: LocationTracker,
    workers: u32,
    queues: Vec<Queue>,
    spare: u32,
}

impl Model for LocalViews {
    ghost use Rattle.expr_tree.specs.contracts.scalar.Scalar as scalar;
    ghost use Rattle.expr_tree.specs.contracts.condition.Cond as condition;
    ghost use Rattle.std.specs.Coded.{codes};
    ghost use Rattle.std.specs.Prelude.{◌≡◌, ◌≤◌};
    ghost use Rattle.std.specs.contracts.alloc.Global as heap;
    ghost use Rattle.std.specs.contracts.impls.GlobalAllocator.TheImpl as allocates;
    ghost use Rattle.graph.specs.Shown.{shown_graph};
    ghost use Rattle.views.specs.WorkerViews.{AreViews, WorkerViews, content_of};

    ghost Value = { WorkerViews };

    ghost coded = { Prim.hlevel (codes, (scalar.the_row heap.the_row allocates.ghosts).coded, (condition.the_row heap.the_row allocates.ghosts).coded) };

    ghost view = { λ t. record { tracker = t.tracker; workers = t.workers; queues = t.queues.items; spare = t.spare } };

    ghost invariant = { λ t. (shown_graph t.tracker.graph ≡ shown_graph t.paths.value) × (t.spare ≤ t.tracker.spare)
        × AreViews (shown_graph t.paths.value) (content_of t.tracker) t.workers t.queues.items t.spare };
}

impl LocalViews {
    /// Creates views of a graph in which each worker sees each input at epoch 0, and nothing waits.
    pub fn new(
        alloc: Global,
        paths: Arc<Paths, Global>,
        workers: u32,
    ) -> Result<LocalViews, NoMemory>
        requires some { 0 < workers }
        requires few { workers ≤ max_workers }
        ensures graph { IfOk result (λ t. shown_graph t.tracker.graph ≡ shown_graph paths.value) }
        ensures workers { IfOk result (λ t. t.workers ≡ workers) }
        ensures content { IfOk result (λ t. (q : Active) → content_of t.tracker q ≡ active_at_first (shown_graph paths.value) q) }
        ensures waiting { IfOk result (λ t. (worker s : ℕ) → waiting_of t.queues worker s ≡ []) }
    {
        let first = open_inputs(alloc, &paths)?;
        LocalViews::starting(alloc, paths, workers, &first)
    }

    /// Creates views in which each worker sees the first pointstamps and nothing waits.
    pub fn starting(
        alloc: Global,
        paths: Arc<Paths, Global>,
        workers: u32,
        first: &[Pointstamp],
    ) -> Result<LocalViews, NoMemory>
        requires some { 0 < workers }
        requires few { workers ≤ max_workers }
        requires fit { length first.now < 2 ^ 32 }
        requires known { (q : Active) → 0 < times_in first.now q → IsTimeAt (shown_graph paths.value) q.location q.time }
        ensures graph { IfOk result (λ t. shown_graph t.tracker.graph ≡ shown_graph paths.value) }
        ensures workers { IfOk result (λ t. t.workers ≡ workers) }
        ensures content { IfOk result (λ t. (q : Active) → content_of t.tracker q ≡ times_in first.now q) }
        ensures waiting { IfOk result (λ t. (worker s : ℕ) → waiting_of t.queues worker s ≡ []) }
    {
        let mut tracker = LocationTracker::new(alloc, Arc::try_clone(&paths)?)?;
        tracker.reserve(first.len() as u32)?;
        add_all(&mut tracker, first);
        let queues = first_queues(alloc, workers)?;
        Ok(LocalViews {
            paths,
            tracker,
            workers,
            queues,
            spare: 0,
        })
    }
}

impl Views for LocalViews {
    ghost graph = { λ t. shown_graph t.tracker.graph };

    ghost workers = { λ t. t.workers };

    ghost content = { λ t. content_of t.tracker };

    ghost waiting = { λ t. waiting_of t.queues };

    ghost behind = { λ t worker sender. lists_of (untaken_at t.queues sender worker) };

    ghost room = { λ t. t.spare };

    ghost late = { true };

    fn reserve(&mut self, count: u32) -> Result<(), NoMemory> {
        if count > self.spare {
            let count = count.max(BLOCK);
            reserve_queues(&mut self.queues, count as usize * 2)?;
            self.tracker.reserve(count)?;
            self.spare = count;
        }
        Ok(())
    }

    fn spare(&self) -> u32 {
        self.spare
    }

    fn post(&mut self, sender: u32, added: &[Pointstamp], removed: &[Pointstamp]) {
        let queue = &mut self.queues[sender as usize];
        queue.post(added, removed);
        add_all(&mut self.tracker, added);
        remove_all(&mut self.tracker, removed);
        self.spare -= (added.len() + removed.len()) as u32;
    }

    fn apply(&mut self, worker: u32, sender: u32) -> bool {
        self.paths.law_of_dataflow();
        let queue = &mut self.queues[sender as usize];
        queue.take(worker)
    }

    fn waits(&self, worker: u32) -> bool {
        some_wait(&self.queues, worker)
    }

    fn in_frontier(&self, worker: u32, p: &Pointstamp) -> bool {
        self.paths.law_of_dataflow();
        if !self.tracker.in_frontier(p) {
            return false;
        }
        !is_blocked(&self.paths, &self.queues, worker, p, true)
    }

    fn none_before(&self, worker: u32, p: &Pointstamp) -> bool {
        self.paths.law_of_dataflow();
        if !self.tracker.none_before(p) {
            return false;
        }
        !is_blocked(&self.paths, &self.queues, worker, p, false)
    }

    fn waiting(&self) -> u64 {
        all_wait(&self.queues, self.workers)
    }

    ghost as_lists = { λ t worker sender. batches_lists sender (untaken_at t.queues sender worker) };
}

/// Makes room for `count` changes and ends of batches in each queue.
fn reserve_queues(queues: &mut Vec<Queue>, count: usize) -> Result<(), NoMemory>
    ensures same { AreSameQueues queues.old.items queues.new.items }
    ensures free { OnOk result (AllFree queues.new.items count) }
{
    for s in 0..queues.len() {
        let queue = &mut queues[s];
        queue.reserve(count)?;
    }
    Ok(())
}

/// Makes a queue for each worker and for the feeder.
fn first_queues(alloc: Global, workers: u32) -> Result<Vec<Queue>, NoMemory>
    requires { workers ≤ max_workers }
    ensures long { IfOk result (λ qs. length qs.items ≡ workers + 1) }
    ensures each { IfOk result (λ qs. (s : ℕ) (q : Queued) → slice_get qs.items s ≡ Some q → (q.changes ≡ []) × (length q.taken ≡ workers)) }
{
    let mut queues = Vec::with_capacity(alloc, workers as usize + 1)?;
    for _ in 0..workers + 1 {
        queues.push(Queue::new(alloc, workers)?)?;
    }
    Ok(queues)
}

/// Whether a batch waits for a worker.
fn some_wait(queues: &[Queue], worker: u32) -> bool
    requires { HasPlaces queues.now worker }
    ensures { MatchBool result ((s : ℕ) × (s < length queues.now) × (waiting_of queues.now worker s ≡ [] → ⊥))
        ((s : ℕ) → s < length queues.now → waiting_of queues.now worker s ≡ []) }
{
    for s in 0..queues.len() {
        let queue = &queues[s];
        if queue.has_waiting(worker) {
            return true;
        }
    }
    false
}

/// The number of batches that wait, over all the workers.
fn all_wait(queues: &[Queue], workers: u32) -> u64
    requires few { workers ≤ max_workers }
    requires taken { AllTaken queues.now workers }
    ensures { result ≡ min (2 ^ 64 - 1) (sum_below workers (λ w. sum_below (length queues.now) (λ s. length (batches_of s (untaken_at queues.now s w))))) }
{
    let mut sum: u64 = 0;
    for w in 0..workers {
        sum = sum.saturating_add(wait_for(queues, w));
    }
    sum
}

/// The number of batches that wait for a worker.
fn wait_for(queues: &[Queue], worker: u32) -> u64
    requires { HasPlaces queues.now worker }
    ensures { result ≡ min (2 ^ 64 - 1) (sum_below (length queues.now) (λ s. length (batches_of s (untaken_at queues.now s worker)))) }
{
    let mut sum: u64 = 0;
    for s in 0..queues.len() {
        let queue = &queues[s];
        sum = sum.saturating_add(queue.count_waiting(worker) as u64);
    }
    sum
}
