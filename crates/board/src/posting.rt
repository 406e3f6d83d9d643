//! Posts a step's changes to the views.

ghost use Rattle.std.specs.Prelude.{◌≡◌, ◌+◌, ◌<◌, ◌≤◌, ℕ, cond, length, nat_lt};
ghost use Rattle.semantics.specs.Could.{CouldResultIn, NoneOf, Pointstamp as Active};
ghost use Rattle.semantics.specs.Dataflow.{IsDataflow};
ghost use Rattle.semantics.specs.Graph.{input_count};
ghost use Rattle.machine.specs.Posting.{MayPost};
ghost use Rattle.views.specs.Content.{times_in};
ghost use Rattle.views.specs.Waiting.{IsSeenBy, after_post, batch};

use path_summary::Pointstamp;
use views::Views;

/// Posts one step's changes as one batch, if there are any.
#[inline(always)]
pub fn post<V: Views>(views: &mut V, sender: u32, added: &[Pointstamp], removed: &[Pointstamp])
    requires sender { sender ≤ V.workers views.old }
    requires room { length added.now + length removed.now ≤ V.room views.old }
    requires may { MayPost (CouldResultIn (V.graph views.old)) (input_count (V.graph views.old)) (V.workers views.old) (V.content views.old)
        (batch sender added.now removed.now) }
    ensures graph { V.graph views.new ≡ V.graph views.old }
    ensures workers { V.workers views.new ≡ V.workers views.old }
    ensures content { (q : Active) → V.content views.new q + times_in removed.now q ≡ V.content views.old q + times_in added.now q }
    ensures waiting { (worker s : ℕ) → worker < V.workers views.old → V.waiting views.new worker s ≡
        cond (nat_lt 0 (length added.now + length removed.now))
        (after_post V.late (V.waiting views.old) (batch sender added.now removed.now) worker s) (V.waiting views.old worker s) }
    ensures stays { IsDataflow (V.graph views.old) → (worker : ℕ) → worker < V.workers views.old → (p : Active) →
        NoneOf (CouldResultIn (V.graph views.old)) (IsSeenBy (V.content views.old) (V.waiting views.old) (V.workers views.old) worker) p →
        NoneOf (CouldResultIn (V.graph views.old)) (IsSeenBy (V.content views.new) (V.waiting views.new) (V.workers views.old) worker) p }
    ensures room { V.room views.old ≤ V.room views.new + (length added.now + length removed.now) }
{
    if added.len() + removed.len() > 0 {
        views.post(sender, added, removed);
    }
}

/// As `post`, for pointstamps that were noted.
#[inline(always)]
pub fn post_noted<V: Views>(
    views: &mut V,
    sender: u32,
    added: &Vec<Pointstamp>,
    removed: &[Pointstamp],
)
    requires sender { sender ≤ V.workers views.old }
    requires room { length added.now.items + length removed.now ≤ V.room views.old }
    requires may { MayPost (CouldResultIn (V.graph views.old)) (input_count (V.graph views.old)) (V.workers views.old) (V.content views.old)
        (batch sender added.now.items removed.now) }
    ensures graph { V.graph views.new ≡ V.graph views.old }
    ensures workers { V.workers views.new ≡ V.workers views.old }
    ensures content { (q : Active) → V.content views.new q + times_in removed.now q ≡ V.content views.old q + times_in added.now.items q }
    ensures waiting { (worker s : ℕ) → worker < V.workers views.old → V.waiting views.new worker s ≡
        cond (nat_lt 0 (length added.now.items + length removed.now))
        (after_post V.late (V.waiting views.old) (batch sender added.now.items removed.now) worker s) (V.waiting views.old worker s) }
    ensures stays { IsDataflow (V.graph views.old) → (worker : ℕ) → worker < V.workers views.old → (p : Active) →
        NoneOf (CouldResultIn (V.graph views.old)) (IsSeenBy (V.content views.old) (V.waiting views.old) (V.workers views.old) worker) p →
        NoneOf (CouldResultIn (V.graph views.old)) (IsSeenBy (V.content views.new) (V.waiting views.new) (V.workers views.old) worker) p }
    ensures room { V.room views.old ≤ V.room views.new + (length added.now.items + length removed.now) }
{
    post(views, sender, added, removed);
}
