//! What the engine's steps post, and what a worker with an up-to-date view sees.

ghost use Rattle.std.specs.Prelude.{◌≡◌, ◌↔◌, ◌+◌, ◌<◌, ℕ, suc, Bool, List, []};
ghost use Rattle.semantics.specs.Graph.{Graph, input_count};
ghost use Rattle.semantics.specs.Could.{CouldResultIn, NoneOf, Pointstamp as Active};
ghost use Rattle.machine.specs.World.{World};
ghost use Rattle.machine.specs.Active.{active_count};
ghost use Rattle.machine.specs.Step.{Allowed, Step, after_step};
ghost use Rattle.machine.specs.Engine.{network};
ghost use Rattle.machine.specs.Headline.{IsRunOn};
ghost use Rattle.machine.specs.Changes.{step_adds, step_removes, step_sender};
ghost use Rattle.machine.specs.Posting.{MayPost};
ghost use Rattle.progress.specs.Content.{times_in};
ghost use Rattle.machine.specs.Views.{Changes};
ghost use Rattle.views.specs.Waiting.{IsSeenBy, Waiting, after_post, all_waiting, batch};

/// If the content is what is active in a run's world, the changes of an allowed step may be posted as a batch, and the content after that is what is
/// active in the next world.
pub fn law_of_step()
    ensures may { (g : Graph) (workers : ℕ) (steps : List Step) (w : World) → IsRunOn g workers steps w →
        (step : Step) → Allowed (network g workers) w step →
        (content : Active → ℕ) → ((q : Active) → content q ≡ active_count (network g workers) w q) →
        (added removed : List Active) →
        ((q : Active) → times_in added q ≡ step_adds (network g workers) w step q) →
        ((q : Active) → times_in removed q ≡ step_removes (network g workers) w step q) →
        MayPost (CouldResultIn g) (input_count g) workers content (batch (step_sender (network g workers) step) added removed) }
    ensures after { (g : Graph) (workers : ℕ) (steps : List Step) (w : World) → IsRunOn g workers steps w →
        (step : Step) → Allowed (network g workers) w step →
        (old new : Active → ℕ) → ((q : Active) → old q ≡ active_count (network g workers) w q) →
        (added removed : List Active) →
        ((q : Active) → times_in added q ≡ step_adds (network g workers) w step q) →
        ((q : Active) → times_in removed q ≡ step_removes (network g workers) w step q) →
        ((q : Active) → new q + times_in removed q ≡ old q + times_in added q) →
        (q : Active) → new q ≡ active_count (network g workers) (after_step (network g workers) w step) q }
{
    machine::pointstamps::law_posted();
    machine::pointstamps::law_active();
}

/// A worker for which nothing waits sees exactly what is active. If the number of waiting batches is 0, nothing waits for any worker. If nothing that
/// a worker sees could result in p, that stays so when a batch is posted that adds nothing that could.
pub fn law_of_waiting()
    ensures seen { (content : Active → ℕ) (waiting : Waiting) (workers worker : ℕ) → ((s : ℕ) → s < suc workers → waiting worker s ≡ []) →
        (q : Active) → IsSeenBy content waiting workers worker q ↔ (0 < content q) }
    ensures none { (waiting : Waiting) (workers : ℕ) → all_waiting waiting workers ≡ 0 →
        (w s : ℕ) → w < workers → s < suc workers → waiting w s ≡ [] }
    ensures stays { (g : Graph) (old new : Active → ℕ) (waiting waiting' : Waiting) (workers worker : ℕ) (b : Changes) →
        b.sender < suc workers → ((q : Active) → new q + b.removes q ≡ old q + b.adds q) →
        (p : Active) → ((q : Active) → 0 < b.adds q → CouldResultIn g q p → ⊥) →
        (late : Bool) → ((s : ℕ) → waiting' worker s ≡ after_post late waiting b worker s) →
        NoneOf (CouldResultIn g) (IsSeenBy old waiting workers worker) p → NoneOf (CouldResultIn g) (IsSeenBy new waiting' workers worker) p }
{}
