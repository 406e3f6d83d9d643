//! Applies all that waits for a worker.

ghost use Rattle.std.specs.Prelude.{◌≡◌, ◌+◌, ◌<◌, ◌≤◌, ℕ, []};
ghost use Rattle.semantics.specs.Limits.{max_workers};
ghost use Rattle.semantics.specs.Could.{CouldResultIn, NoneOf, Pointstamp as Active};
ghost use Rattle.views.specs.Waiting.{IsSeenBy};

use crate::views::Views;

/// Applies all that waits for the worker, sender by sender. If nothing waits, no sender is looked at.
pub fn catch_up<V: Views>(views: &mut V, worker: u32, workers: u32)
    requires worker { worker < workers }
    requires workers { workers ≡ V.workers views.old }
    requires few { workers ≤ max_workers }
    ensures graph { V.graph views.new ≡ V.graph views.old }
    ensures workers { V.workers views.new ≡ V.workers views.old }
    ensures content { (q : Active) → V.content views.new q ≡ V.content views.old q }
    ensures none { (s : ℕ) → s < workers + 1 → V.waiting views.new worker s ≡ [] }
    ensures others { (w s : ℕ) → (w ≡ worker → ⊥) → V.waiting views.new w s ≡ V.waiting views.old w s }
    ensures stays { (p : Active) →
        NoneOf (CouldResultIn (V.graph views.old)) (IsSeenBy (V.content views.old) (V.waiting views.old) workers worker) p →
        NoneOf (CouldResultIn (V.graph views.old)) (IsSeenBy (V.content views.new) (V.waiting views.new) workers worker) p }
    ensures room { V.room views.old ≤ V.room views.new }
{
    if !views.waits(worker) {
        return;
    }
    for sender in 0..workers + 1 {
        take_all(views, worker, sender);
    }
}

/// Applies all that waits for the worker from one sender.
fn take_all<V: Views>(views: &mut V, worker: u32, sender: u32)
    requires worker { worker < V.workers views.old }
    requires sender { sender ≤ V.workers views.old }
    ensures graph { V.graph views.new ≡ V.graph views.old }
    ensures workers { V.workers views.new ≡ V.workers views.old }
    ensures content { (q : Active) → V.content views.new q ≡ V.content views.old q }
    ensures none { V.waiting views.new worker sender ≡ [] }
    ensures others { (w s : ℕ) → (w ≡ worker → s ≡ sender → ⊥) → V.waiting views.new w s ≡ V.waiting views.old w s }
    ensures stays { (p : Active) →
        NoneOf (CouldResultIn (V.graph views.old)) (IsSeenBy (V.content views.old) (V.waiting views.old) (V.workers views.old) worker) p →
        NoneOf (CouldResultIn (V.graph views.old)) (IsSeenBy (V.content views.new) (V.waiting views.new) (V.workers views.old) worker) p }
    ensures room { V.room views.old ≤ V.room views.new }
{
    'taking: while views.apply(worker, sender) {}
}
