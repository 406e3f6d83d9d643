ghost use Rattle.std.specs.Prelude.{◌≡◌, ◌≤◌, ◌<◌, ◌*◌, ℕ, List, true, false, length};
ghost use Rattle.semantics.specs.Multiset.{◌≈◌, total};
ghost use Rattle.semantics.specs.Query.{Program};
ghost use Rattle.semantics.specs.Graph.{Graph, input_count};
ghost use Rattle.semantics.specs.Dataflow.{IsDataflow};
ghost use Rattle.machine.specs.World.{World};
ghost use Rattle.machine.specs.Frontier.{Passed};
ghost use Rattle.machine.specs.Drained.{IsDrained};
ghost use Rattle.machine.specs.Step.{Allowed, Step, after_step};
ghost use Rattle.machine.specs.Run.{Run};
ghost use Rattle.machine.specs.Engine.{engine, network};
ghost use Rattle.machine.specs.Headline.{IsRunOf, IsRunOn, meant, output_of};
ghost use Rattle.ending.specs.Ending.{AreWork, IsIdle, IsOver, IsWork, one_if_feed, one_if_work};

/// A run ends, however its steps are chosen. From any moment of a run the workers take at most so many steps until the next feed. A number of worlds
/// falls at each of their steps. And by the number of its feeds alone, whatever is fed, a run has at most so many steps of workers, at any time.
pub fn law_ends()
    ensures bound { (g : Graph) (workers : ℕ) (steps : List Step) (w : World) → IsRunOn g workers steps w →
        (most : ℕ) × ((more : List Step) (after : World) → Run (network g workers) w more after → AreWork more → length more ≤ most) }
    ensures measure { (g : Graph) → IsDataflow g → (workers : ℕ) →
        (left : World → ℕ) × ((steps : List Step) (w : World) → IsRunOn g workers steps w → (step : Step) → IsWork step →
        Allowed (network g workers) w step → left (after_step (network g workers) w step) < left w) }
    ensures by_feeds { (g : Graph) → IsDataflow g → (workers : ℕ) →
        (most : ℕ) × ((steps : List Step) (w : World) → IsRunOn g workers steps w → total one_if_work steps ≤ total one_if_feed steps * most) }
{}

/// Where a run can't be continued by a worker, and nothing was abandoned, it is done: each epoch that is over at every input has passed at each
/// output, and what was emitted there for it is all that the query means. If every input is closed, the world is drained.
pub fn law_idle()
    ensures passed { (g : Graph) (workers : ℕ) (steps : List Step) (w : World) → IsRunOn g workers steps w → w.stopped ≡ false →
        IsIdle (network g workers) w → (epoch : ℕ) → ((input : ℕ) → input < input_count g → IsOver w input epoch) →
        (output : ℕ) → Passed (network g workers) w output epoch }
    ensures drained { (g : Graph) (workers : ℕ) (steps : List Step) (w : World) → IsRunOn g workers steps w → w.stopped ≡ false →
        IsIdle (network g workers) w → ((input : ℕ) → input < input_count g → w.closed input ≡ true) → IsDrained (network g workers) w }
    ensures whole { (p : Program) (workers : ℕ) (steps : List Step) (w : World) → IsRunOf p workers steps w → w.stopped ≡ false →
        IsIdle (engine p workers) w → (epoch : ℕ) → ((input : ℕ) → input < length p.inputs → IsOver w input epoch) →
        (output : ℕ) → output < length p.outputs → w.emitted (output_of p output) epoch ≈ meant p w output epoch }
{}
