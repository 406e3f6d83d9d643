ghost use Rattle.std.specs.Prelude.{◌<◌, ℕ, List};
ghost use Rattle.semantics.specs.Multiset.{IsPartOf, ◌≈◌};
ghost use Rattle.semantics.specs.Time.{Time};
ghost use Rattle.semantics.specs.Graph.{Graph, edge_count};
ghost use Rattle.semantics.specs.Flow.{Flow, IsFlow, edge_flow};
ghost use Rattle.semantics.specs.Could.{IsTimeAt, Location, on_edge};
ghost use Rattle.machine.specs.World.{World};
ghost use Rattle.machine.specs.Frontier.{NoneBefore};
ghost use Rattle.machine.specs.Step.{Step};
ghost use Rattle.machine.specs.Engine.{network};
ghost use Rattle.machine.specs.Headline.{IsRunOn};

/// What was sent on an edge is part of the flow on what was fed, and all of it if no active pointstamp could result there.
pub fn law_sent()
    ensures part { (g : Graph) (workers : ℕ) (steps : List Step) (w : World) →
        IsRunOn g workers steps w → (flow : Flow) → IsFlow g w.fed flow →
        (edge : ℕ) (t : Time) → edge < edge_count g → IsTimeAt g (Location.edge edge) t →
        IsPartOf (w.sent edge t) (edge_flow g flow edge t) }
    ensures whole { (g : Graph) (workers : ℕ) (steps : List Step) (w : World) →
        IsRunOn g workers steps w → (flow : Flow) → IsFlow g w.fed flow →
        (edge : ℕ) (t : Time) → edge < edge_count g → IsTimeAt g (Location.edge edge) t →
        NoneBefore (network g workers) w (on_edge edge t) →
        w.sent edge t ≈ edge_flow g flow edge t }
{}
