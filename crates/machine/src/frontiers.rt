ghost use Rattle.std.specs.Prelude.{◌≡◌, ◌<◌, ◌≤◌, ◌↔◌, ℕ, List, length};
ghost use Rattle.semantics.specs.Graph.{Graph, output_numbers, output_number};
ghost use Rattle.semantics.specs.Could.{Pointstamp};
ghost use Rattle.semantics.specs.Dataflow.{IsDataflow};
ghost use Rattle.machine.specs.World.{World};
ghost use Rattle.machine.specs.Active.{IsActive};
ghost use Rattle.machine.specs.Frontier.{IsPassedCount, NoOtherBefore, NoneBefore, Passed, PassedBelow};
ghost use Rattle.machine.specs.Drained.{IsDrained};
ghost use Rattle.machine.specs.Step.{Allowed, Step, after_step};
ghost use Rattle.machine.specs.Engine.{network};
ghost use Rattle.machine.specs.Headline.{IsRunOn};

/// If no active pointstamp could result in a pointstamp, or none but itself, no step changes that.
pub fn law_frontier()
    ensures none_before { (g : Graph) (workers : ℕ) (steps : List Step) (w : World) →
        IsRunOn g workers steps w → (step : Step) → Allowed (network g workers) w step →
        (pointstamp : Pointstamp) → NoneBefore (network g workers) w pointstamp →
        NoneBefore (network g workers) (after_step (network g workers) w step) pointstamp }
    ensures no_other_before { (g : Graph) (workers : ℕ) (steps : List Step) (w : World) →
        IsRunOn g workers steps w → (step : Step) → Allowed (network g workers) w step →
        (pointstamp : Pointstamp) → NoOtherBefore (network g workers) w pointstamp →
        NoOtherBefore (network g workers) (after_step (network g workers) w step) pointstamp }
{}

/// An epoch that has passed at an output stays passed, whatever the step.
pub fn law_passed()
    ensures { (g : Graph) (workers : ℕ) (steps : List Step) (w : World) →
        IsRunOn g workers steps w → (step : Step) → Allowed (network g workers) w step →
        (output epoch : ℕ) → Passed (network g workers) w output epoch →
        Passed (network g workers) (after_step (network g workers) w step) output epoch }
{}

/// Whether each epoch below n has passed at each output can be seen at the graph's outputs, by their places.
pub fn law_passed_below()
    ensures { (g : Graph) (workers : ℕ) (w : World) (n : ℕ) →
        PassedBelow (network g workers) w n
        ↔ ((output epoch : ℕ) → output < length (output_numbers g) → epoch < n →
        Passed (network g workers) w (output_number g output) epoch) }
{}

/// The number of passed epochs is unique, and no step lowers it.
pub fn law_passed_count()
    ensures one { (g : Graph) (workers : ℕ) (w : World) (m n : ℕ) →
        IsPassedCount (network g workers) w m → IsPassedCount (network g workers) w n → m ≡ n }
    ensures stays { (g : Graph) (workers : ℕ) (steps : List Step) (w : World) →
        IsRunOn g workers steps w → (step : Step) → Allowed (network g workers) w step → (m n : ℕ) →
        IsPassedCount (network g workers) w m →
        IsPassedCount (network g workers) (after_step (network g workers) w step) n → m ≤ n }
{}

/// A world is drained exactly if no pointstamp is active. Then every epoch has passed.
pub fn law_drained()
    ensures exact { (g : Graph) → IsDataflow g → (workers : ℕ) → 0 < workers → (w : World) →
        IsDrained (network g workers) w ↔ ((pointstamp : Pointstamp) → IsActive (network g workers) w pointstamp → ⊥) }
    ensures passed { (g : Graph) → IsDataflow g → (workers : ℕ) → 0 < workers → (w : World) →
        IsDrained (network g workers) w → (output epoch : ℕ) → Passed (network g workers) w output epoch }
{}
