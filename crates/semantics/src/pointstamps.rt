ghost use Rattle.std.specs.Prelude.{◌≡◌, ◌⊎◌, ◌<◌, ◌+◌, ℕ, List, true, length};
ghost use Rattle.semantics.specs.Time.{Time, at_epoch, is_before};
ghost use Rattle.semantics.specs.Graph.{Graph, edge_count};
ghost use Rattle.semantics.specs.Dataflow.{IsDataflow};
ghost use Rattle.semantics.specs.Could.{Location, Pointstamp, at_vertex, IsTimeAt, PathStep, step_edge};
ghost use Rattle.semantics.specs.Could.{step_from, step_to, step_time, IsPath, path_time, CouldResultIn};
ghost use Rattle.semantics.specs.Summary.{applied, summary_of};
ghost use Rattle.semantics.specs.Rank.{rank};

/// Could-result-in: a path takes a time where its summary does, and to a time of its target's depth. Each pointstamp could result in itself; the
/// relation is transitive; and no two pointstamps could result in each other.
pub fn law_could()
    ensures summary { (g : Graph) → IsDataflow g → (path : List PathStep) (l m : Location) (t : Time) →
        IsPath g l path m → IsTimeAt g l t →
        path_time g path t ≡ record { epoch = t.epoch; counters = applied (summary_of g (length t.counters) path) t.counters } }
    ensures depth { (g : Graph) → IsDataflow g → (path : List PathStep) (l m : Location) (t : Time) →
        IsPath g l path m → IsTimeAt g l t → IsTimeAt g m (path_time g path t) }
    ensures itself { (g : Graph) → IsDataflow g → (p : Pointstamp) → IsTimeAt g p.location p.time → CouldResultIn g p p }
    ensures onward { (g : Graph) → IsDataflow g → (p q s : Pointstamp) → CouldResultIn g p q → CouldResultIn g q s →
        CouldResultIn g p s }
    ensures once { (g : Graph) → IsDataflow g → (p q : Pointstamp) → CouldResultIn g p q → CouldResultIn g q p → p ≡ q }
{}

/// The rank rises along each step of a path, to any other pointstamp that could result, and at a seal.
pub fn law_rank()
    ensures step { (g : Graph) (d : IsDataflow g) (s : PathStep) (t : Time) →
        step_edge s < edge_count g → IsTimeAt g (step_from g s) t →
        is_before (rank g d.loops (record { time = t; location = step_from g s }))
        (rank g d.loops (record { time = step_time g s t; location = step_to g s }))
        ≡ true }
    ensures onward { (g : Graph) (d : IsDataflow g) (p q : Pointstamp) → CouldResultIn g p q →
        (p ≡ q) ⊎ (is_before (rank g d.loops p) (rank g d.loops q) ≡ true) }
    ensures seal { (g : Graph) (loops : ℕ → List ℕ) (v n : ℕ) →
        is_before (rank g loops (at_vertex v (at_epoch n))) (rank g loops (at_vertex v (at_epoch (n + 1)))) ≡ true }
{}
