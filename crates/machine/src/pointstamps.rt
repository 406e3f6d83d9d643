ghost use Rattle.std.specs.Prelude.{◌≡◌, ◌<◌, ◌+◌, ◌↔◌, ℕ, Bool, List};
ghost use Rattle.semantics.specs.Graph.{Graph, input_count};
ghost use Rattle.semantics.specs.Could.{CouldResultIn, Pointstamp, at_vertex};
ghost use Rattle.semantics.specs.Time.{at_epoch};
ghost use Rattle.semantics.specs.Dataflow.{IsDataflow};
ghost use Rattle.machine.specs.World.{World, opening};
ghost use Rattle.machine.specs.Active.{IsActive, active_count, one_if_same, sum_below};
ghost use Rattle.machine.specs.Step.{Allowed, Step, after_step};
ghost use Rattle.machine.specs.Engine.{network};
ghost use Rattle.machine.specs.Headline.{IsRunOn};
ghost use Rattle.machine.specs.Changes.{step_adds, step_removes};
ghost use Rattle.machine.specs.Posting.{ArePosted, MayPost};
ghost use Rattle.machine.specs.RunViews.{changes_of, log_of};

/// A pointstamp is active exactly if its count is above 0, and a step changes the counts by what it adds and removes. Before the first step the
/// vertex of each input is active at epoch 0, once, and nothing else is.
pub fn law_active()
    ensures counts { (g : Graph) → IsDataflow g → (workers : ℕ) → 0 < workers →
        (w : World) (pointstamp : Pointstamp) →
        IsActive (network g workers) w pointstamp ↔ (0 < active_count (network g workers) w pointstamp) }
    ensures step { (g : Graph) → IsDataflow g → (workers : ℕ) → 0 < workers →
        (w : World) (step : Step) → Allowed (network g workers) w step → (pointstamp : Pointstamp) →
        active_count (network g workers) (after_step (network g workers) w step) pointstamp
        + step_removes (network g workers) w step pointstamp
        ≡ active_count (network g workers) w pointstamp + step_adds (network g workers) w step pointstamp }
    ensures opening { (g : Graph) (workers : ℕ) (pointstamp : Pointstamp) →
        active_count (network g workers) opening pointstamp
        ≡ sum_below (input_count g) (λ i. one_if_same pointstamp (at_vertex i (at_epoch 0))) }
{}

/// The changes of an allowed step may be posted while exactly the active pointstamps are there; so may those of a run, one after the other.
pub fn law_posted()
    ensures step { (g : Graph) (workers : ℕ) (steps : List Step) (w : World) →
        IsRunOn g workers steps w → (step : Step) → Allowed (network g workers) w step → (applied : Bool) →
        MayPost (CouldResultIn g) (input_count g) workers (active_count (network g workers) w)
        (changes_of (network g workers) w step applied) }
    ensures run { (g : Graph) (workers : ℕ) (steps : List Step) (w : World) →
        IsRunOn g workers steps w → (flags : List Bool) →
        ArePosted (CouldResultIn g) (input_count g) workers (active_count (network g workers) opening)
        (log_of (network g workers) opening steps flags) }
{}
