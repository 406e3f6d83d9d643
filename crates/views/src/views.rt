//! The trait of the views of all workers.

ghost use Rattle.std.specs.Prelude.{◌≡◌, ◌+◌, ◌-◌, ◌^◌, ◌<◌, ◌≤◌, ◌↔◌, ℕ, Bool, false, List, IsTrue, MatchBool, OnOk, length, min};
ghost use Rattle.semantics.specs.Graph.{Graph as Definition, input_count};
ghost use Rattle.semantics.specs.Could.{CouldResultIn, IsTimeAt, NoOtherOf, NoneOf, Pointstamp as Active};
ghost use Rattle.semantics.specs.Dataflow.{IsDataflow};
ghost use Rattle.machine.specs.Posting.{MayPost};
ghost use Rattle.progress.specs.Content.{times_in};
ghost use Rattle.views.specs.Waiting.{IsApplied, IsSeenBy, NoneWaits, Posted, SomeWait, Waiting};
ghost use Rattle.views.specs.Waiting.{after_post, all_waiting, batch, batches_as};

use path_summary::Pointstamp;
use record_core::NoMemory;

/// The active pointstamps of a graph, as each worker sees them (Naiad, section 3.3). A worker's view lacks the batches of changes that
/// wait for it; the batches of one sender are applied in order. The senders are the workers, from 0, and then the feeder, whose number is
/// that of the workers. Only `reserve` takes memory.
pub trait Views: Drop {
    ghost graph: { Self → Definition };

    ghost workers: { Self → ℕ };

    ghost content: { Self → Active → ℕ };

    ghost waiting: { Self → Waiting };

    ghost behind: { Self → (worker sender : ℕ) → List Posted };

    ghost room: { Self → ℕ };

    ghost late: { Bool };

    /// Makes room for `count` changes. Whether it succeeds or not, what is active and what waits is unchanged, and the room hasn't shrunk.
    fn reserve(&mut self, count: u32) -> Result<(), NoMemory>
        ensures graph { graph self.new ≡ graph self.old }
        ensures workers { workers self.new ≡ workers self.old }
        ensures content { (q : Active) → content self.new q ≡ content self.old q }
        ensures waiting { (worker sender : ℕ) → waiting self.new worker sender ≡ waiting self.old worker sender }
        ensures behind { (worker sender : ℕ) → behind self.new worker sender ≡ behind self.old worker sender }
        ensures kept { room self.old ≤ room self.new }
        ensures room { OnOk result (count ≤ room self.new) };

    /// The number of changes that there is room for.
    fn spare(&self) -> u32
        ensures { result ≡ room self.now };

    /// Posts one step's changes as one batch. If nothing that a worker sees could result in a pointstamp, that stays so.
    fn post(&mut self, sender: u32, added: &[Pointstamp], removed: &[Pointstamp])
        requires sender { sender ≤ workers self.old }
        requires some { 0 < length added.now + length removed.now }
        requires room { length added.now + length removed.now ≤ room self.old }
        requires may { MayPost (CouldResultIn (graph self.old)) (input_count (graph self.old)) (workers self.old) (content self.old)
            (batch sender added.now removed.now) }
        ensures graph { graph self.new ≡ graph self.old }
        ensures workers { workers self.new ≡ workers self.old }
        ensures content { (q : Active) → content self.new q + times_in removed.now q ≡ content self.old q + times_in added.now q }
        ensures waiting { (worker s : ℕ) → worker < workers self.old →
            waiting self.new worker s ≡ after_post late (waiting self.old) (batch sender added.now removed.now) worker s }
        ensures stays { IsDataflow (graph self.old) → (worker : ℕ) → worker < workers self.old → (p : Active) →
            NoneOf (CouldResultIn (graph self.old)) (IsSeenBy (content self.old) (waiting self.old) (workers self.old) worker) p →
            NoneOf (CouldResultIn (graph self.old)) (IsSeenBy (content self.new) (waiting self.new) (workers self.old) worker) p }
        ensures room { room self.old ≤ room self.new + (length added.now + length removed.now) };

    /// Applies the sender's next batch to the worker's view. False if none waits.
    fn apply(&mut self, worker: u32, sender: u32) -> bool
        requires worker { worker < workers self.old }
        requires sender { sender ≤ workers self.old }
        ensures graph { graph self.new ≡ graph self.old }
        ensures workers { workers self.new ≡ workers self.old }
        ensures content { (q : Active) → content self.new q ≡ content self.old q }
        ensures applied { IsApplied worker sender (waiting self.old) (waiting self.new) result }
        ensures others { (w s : ℕ) → (w ≡ worker → s ≡ sender → ⊥) → waiting self.new w s ≡ waiting self.old w s }
        ensures nothing { result ≡ false → (w s : ℕ) → behind self.new w s ≡ behind self.old w s }
        ensures stays { (p : Active) →
            NoneOf (CouldResultIn (graph self.old)) (IsSeenBy (content self.old) (waiting self.old) (workers self.old) worker) p →
            NoneOf (CouldResultIn (graph self.old)) (IsSeenBy (content self.new) (waiting self.new) (workers self.old) worker) p }
        ensures room { room self.old ≤ room self.new };

    /// Whether a batch waits for the worker.
    #[inline(always)]
    fn waits(&self, worker: u32) -> bool
        requires worker { worker < workers self.now }
        ensures { MatchBool result (SomeWait (waiting self.now) (workers self.now) worker) (NoneWaits (waiting self.now) (workers self.now) worker) };

    /// Whether the worker sees no active pointstamp other than `p` that could result in `p`. If it sees none, there is none.
    fn in_frontier(&self, worker: u32, p: &Pointstamp) -> bool
        requires worker { worker < workers self.now }
        requires known { IsTimeAt (graph self.now) p.now.location p.now.time }
        ensures seen { IsTrue result ↔
            NoOtherOf (CouldResultIn (graph self.now)) (IsSeenBy (content self.now) (waiting self.now) (workers self.now) worker) p.now }
        ensures there { IsTrue result → NoOtherOf (CouldResultIn (graph self.now)) (λ q. 0 < content self.now q) p.now };

    /// Whether the worker sees no active pointstamp, `p` included, that could result in `p`. If it sees none, there is none.
    fn none_before(&self, worker: u32, p: &Pointstamp) -> bool
        requires worker { worker < workers self.now }
        requires known { IsTimeAt (graph self.now) p.now.location p.now.time }
        ensures seen { IsTrue result ↔
            NoneOf (CouldResultIn (graph self.now)) (IsSeenBy (content self.now) (waiting self.now) (workers self.now) worker) p.now }
        ensures there { IsTrue result → NoneOf (CouldResultIn (graph self.now)) (λ q. 0 < content self.now q) p.now };

    /// The number of batches that wait, over all workers; `u64::MAX` if there are more.
    fn waiting(&self) -> u64
        ensures { result ≡ min (2 ^ 64 - 1) (all_waiting (waiting self.now) (workers self.now)) };

    ghost as_lists: { (views : Self) (worker sender : ℕ) → waiting views worker sender ≡ batches_as sender (behind views worker sender) };
}
