ghost use Rattle.std.specs.Prelude.{◌≡◌, ◌⊎◌, ◌<◌, ℕ, Bool, List, Some, slice_get, slice_index_or, length};
ghost use Rattle.semantics.specs.Query.{Program};
ghost use Rattle.semantics.specs.Time.{Time};
ghost use Rattle.semantics.specs.Kinds.{Kind, Role, role};
ghost use Rattle.semantics.specs.Graph.{Graph, edge_source, source, vertex};
ghost use Rattle.semantics.specs.Could.{IsTimeAt, Location};
ghost use Rattle.semantics.specs.PortArity.{HaveFields, IsTyped, program_arities};
ghost use Rattle.semantics.specs.Lower.{lowered};
ghost use Rattle.machine.specs.World.{Event, Held, Message, Request, World};
ghost use Rattle.machine.specs.Step.{Step};
ghost use Rattle.machine.specs.Headline.{IsRunOf, IsRunOn, output_of};
ghost use Rattle.machine.specs.InTransit.{FedFits, IsGoodEvent, IsGoodMessage, IsGoodRequest};

/// What is in mailboxes, in requests and held by workers fits the graph.
pub fn law_in_transit()
    ensures messages { (g : Graph) (workers : ℕ) (steps : List Step) (w : World) →
        IsRunOn g workers steps w → (worker at : ℕ) (m : Message) → worker < workers →
        slice_get (w.mail worker) at ≡ Some m → IsGoodMessage g m }
    ensures requests { (g : Graph) (workers : ℕ) (steps : List Step) (w : World) →
        IsRunOn g workers steps w → (worker at : ℕ) (n : Request) → worker < workers →
        slice_get (w.requests worker) at ≡ Some n → IsGoodRequest g n }
    ensures held { (g : Graph) (workers : ℕ) (steps : List Step) (w : World) →
        IsRunOn g workers steps w → (worker : ℕ) (abandoned : Bool) (event : Event) → worker < workers →
        w.held worker ≡ Held.holding abandoned event → IsGoodEvent g event }
{}

/// If each record that was fed has its input's arity, then each record under way, absorbed or emitted has its port's, and what a program's engine
/// emits at an output has that output's.
pub fn law_arities()
    ensures messages { (g : Graph) (workers : ℕ) (steps : List Step) (w : World) →
        IsRunOn g workers steps w → (arity : ℕ → ℕ) → IsTyped g arity → FedFits g arity w →
        (worker at : ℕ) (m : Message) → worker < workers → slice_get (w.mail worker) at ≡ Some m →
        HaveFields (arity (edge_source g m.edge).vertex) m.records }
    ensures held { (g : Graph) (workers : ℕ) (steps : List Step) (w : World) →
        IsRunOn g workers steps w → (arity : ℕ → ℕ) → IsTyped g arity → FedFits g arity w →
        (worker : ℕ) (abandoned : Bool) (m : Message) → worker < workers →
        w.held worker ≡ Held.holding abandoned (Event.arrival m) →
        HaveFields (arity (edge_source g m.edge).vertex) m.records }
    ensures absorbed { (g : Graph) (workers : ℕ) (steps : List Step) (w : World) →
        IsRunOn g workers steps w → (arity : ℕ → ℕ) → IsTyped g arity → FedFits g arity w →
        (worker v port : ℕ) (t : Time) → worker < workers → port < length (vertex g v).ins →
        IsTimeAt g (Location.vertex v) t →
        (role (vertex g v).kind ≡ Role.stateful) ⊎ (role (vertex g v).kind ≡ Role.notified) →
        HaveFields (arity (source g v port).vertex) (w.absorbed worker v port t) }
    ensures emitted { (g : Graph) (workers : ℕ) (steps : List Step) (w : World) →
        IsRunOn g workers steps w → (arity : ℕ → ℕ) → IsTyped g arity → FedFits g arity w →
        (v epoch : ℕ) → v < length g → (vertex g v).kind ≡ Kind.output → HaveFields (arity v) (w.emitted v epoch) }
    ensures program { (p : Program) (workers : ℕ) (steps : List Step) (w : World) (is : IsRunOf p workers steps w) →
        FedFits (lowered p) (λ v. slice_index_or (program_arities p) v 0) w →
        (output epoch : ℕ) → output < length p.outputs →
        HaveFields (slice_index_or is.arities output 0) (w.emitted (output_of p output) epoch) }
{}
