ghost use Rattle.std.specs.Prelude.{ℕ};
ghost use Rattle.semantics.specs.Graph.{Graph};
ghost use Rattle.machine.specs.World.{World, opening};
ghost use Rattle.machine.specs.Step.{Allowed, Step, after_step};
ghost use Rattle.machine.specs.Run.{Reached};
ghost use Rattle.machine.specs.Engine.{network};

/// The opening world is reached by a run, and so is the world after an allowed step from a reached one.
pub fn law_reached()
    ensures opening { (g : Graph) (workers : ℕ) → Reached (network g workers) opening }
    ensures step { (g : Graph) (workers : ℕ) (w : World) (step : Step) →
        Reached (network g workers) w → Allowed (network g workers) w step →
        Reached (network g workers) (after_step (network g workers) w step) }
{}
