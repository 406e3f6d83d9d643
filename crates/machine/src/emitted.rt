ghost use Rattle.std.specs.Prelude.{◌≡◌, ◌<◌, ℕ, List, length};
ghost use Rattle.semantics.specs.Multiset.{IsPartOf, ◌≈◌};
ghost use Rattle.semantics.specs.Query.{Program};
ghost use Rattle.semantics.specs.Time.{at_epoch};
ghost use Rattle.semantics.specs.Kinds.{Kind};
ghost use Rattle.semantics.specs.Graph.{Graph, vertex};
ghost use Rattle.semantics.specs.Flow.{Flow, IsFlow};
ghost use Rattle.semantics.specs.Lower.{lowered};
ghost use Rattle.machine.specs.World.{World};
ghost use Rattle.machine.specs.Frontier.{Passed};
ghost use Rattle.machine.specs.Step.{Step};
ghost use Rattle.machine.specs.Engine.{engine, network};
ghost use Rattle.machine.specs.Headline.{IsRunOf, IsRunOn, meant, output_of};

/// The main theorem. It holds for every well-typed query, every number of workers, every list of steps, every moment and each output: the records
/// emitted there for an epoch are part of the multiset that the output's tree means on the records fed for that epoch so far, and all of it once the
/// epoch has passed at that output.
pub fn law_headline()
    ensures part { (p : Program) (workers : ℕ) (steps : List Step) (w : World) →
        IsRunOf p workers steps w → (output epoch : ℕ) → output < length p.outputs →
        IsPartOf (w.emitted (output_of p output) epoch) (meant p w output epoch) }
    ensures whole { (p : Program) (workers : ℕ) (steps : List Step) (w : World) →
        IsRunOf p workers steps w → (output epoch : ℕ) → output < length p.outputs →
        Passed (engine p workers) w (output_of p output) epoch →
        w.emitted (output_of p output) epoch ≈ meant p w output epoch }
{}

/// For any dataflow graph: what was emitted at an output vertex for an epoch is part of the flow on its edge, on what was fed, and all of it once the
/// epoch has passed there.
pub fn law_emitted()
    ensures part { (g : Graph) (workers : ℕ) (steps : List Step) (w : World) →
        IsRunOn g workers steps w → (flow : Flow) → IsFlow g w.fed flow →
        (v epoch : ℕ) → v < length g → (vertex g v).kind ≡ Kind.output →
        IsPartOf (w.emitted v epoch) (flow v 0 (at_epoch epoch)) }
    ensures whole { (g : Graph) (workers : ℕ) (steps : List Step) (w : World) →
        IsRunOn g workers steps w → (flow : Flow) → IsFlow g w.fed flow →
        (v epoch : ℕ) → v < length g → (vertex g v).kind ≡ Kind.output → Passed (network g workers) w v epoch →
        w.emitted v epoch ≈ flow v 0 (at_epoch epoch) }
{}

/// A program's run is a run of its graph, so the laws of graphs apply to it.
pub fn law_run_of_graph()
    ensures { (p : Program) (workers : ℕ) (steps : List Step) (w : World) →
        IsRunOf p workers steps w → IsRunOn (lowered p) workers steps w }
{}
