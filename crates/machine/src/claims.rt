ghost use Rattle.std.specs.Prelude.{◌≡◌, ◌<◌, ℕ, false, List};
ghost use Rattle.semantics.specs.Multiset.{Record};
ghost use Rattle.semantics.specs.Graph.{Graph};
ghost use Rattle.machine.specs.World.{Event, Held, World};
ghost use Rattle.machine.specs.Step.{Allowed, MayClaim, Step};
ghost use Rattle.machine.specs.Engine.{network};
ghost use Rattle.machine.specs.Headline.{IsRunOn};
ghost use Rattle.machine.specs.Choices.{Chooses, IsClaimBy};

/// A worker's choice may be taken, the n-th choice is unique, and every allowed claim is a choice.
pub fn law_choice()
    ensures allowed { (g : Graph) (workers : ℕ) (w : World) (worker n : ℕ) (step : Step) →
        MayClaim (network g workers) w worker → Chooses (network g workers) w worker n step →
        Allowed (network g workers) w step }
    ensures one { (g : Graph) (workers : ℕ) (w : World) (worker n : ℕ) (step other : Step) →
        Chooses (network g workers) w worker n step → Chooses (network g workers) w worker n other → step ≡ other }
    ensures all { (g : Graph) (workers : ℕ) (w : World) (worker : ℕ) (step : Step) →
        MayClaim (network g workers) w worker → Allowed (network g workers) w step → IsClaimBy worker step →
        ((n : ℕ) → Chooses (network g workers) w worker n step → ⊥) → ⊥ }
{}

/// A held event that isn't abandoned can always be committed.
pub fn law_commit()
    ensures { (g : Graph) (workers : ℕ) (steps : List Step) (w : World) →
        IsRunOn g workers steps w → (worker : ℕ) (event : Event) → worker < workers →
        w.held worker ≡ Held.holding false event →
        (out : ℕ → List Record) × Allowed (network g workers) w (Step.commit worker event out) }
{}
